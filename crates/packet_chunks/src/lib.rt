// The chunks of a packet: behind the common header of 12 bytes, one after the other, each padded to a multiple of 4 bytes.
#![tactic(auto)]

ghost use Rattle.std.specs.Prelude.{◌≡◌};
ghost use Rattle.packet_chunks.specs.Chunks.{step_told, step_at};

use refusal::Refusal;

// A chunk goes up to end, and behind its padding next is the place of what follows.
#[derive(Clone, Copy)]
pub struct Found {
    pub end: usize,
    pub next: usize,
}

// The chunk at a place of the packet, whose first is 12; none at its end.
pub fn chunk_at(packet: &[u8], at: usize) -> Result<Option<Found>, Refusal>
    ensures { step_told result ≡ step_at packet.now at }
{
    if at < 12 {
        return Err(Refusal::OutOfRange);
    }
    if packet.len() < at {
        return Err(Refusal::OutOfRange);
    }
    if packet.len() == at {
        return Ok(None);
    }
    let size = packet_parts::chunk_size(&packet[at..])?;
    let end = at + size as usize;
    let next = at + packet_parts::padded_size(size);
    if packet.len() < next {
        return Ok(Some(Found {
            end,
            next: packet.len(),
        }));
    }
    Ok(Some(Found { end, next }))
}
