// Packets, written: the common header of RFC 4960 section 3.1, chunks with their padding, and the checksum.
#![tactic(auto)]

ghost use Rattle.std.specs.Prelude.{◌≡◌};
ghost use Rattle.wire_model.specs.Refusal.{written};
ghost use Rattle.refusal.specs.Told.{count_told};
ghost use Rattle.packet.specs.Layout.{common};
ghost use Rattle.packet_marshal.specs.Written.{packet_written};

use refusal::Refusal;

// The packet of these fields and of chunks lent back to back without padding, written to the front of the lent buffer.
pub fn marshal_to(
    out: &mut [u8],
    source_port: u16,
    destination_port: u16,
    verification_tag: u32,
    chunks: &[u8],
) -> Result<usize, Refusal>
    ensures { written (count_told result) out.new ≡ packet_written (common source_port destination_port verification_tag) chunks.now out.old }
{
    let measured = packet_body::measure(chunks)?;
    let size = 12 + measured;
    if out.len() < size {
        return Err(Refusal::ShortOutput);
    }
    packet_common::put_common(out, source_port, destination_port, verification_tag);
    packet_body::put_body(&mut out[12..], chunks);
    let sum = crc32c::crc32c(&out[..size]);
    wire_put::put_u32(&mut out[8..], packet_parts::swapped(sum));
    Ok(size)
}
