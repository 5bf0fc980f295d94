// What the C call is made of that walks over a packet's chunks. Out values are 0 and false beside a refusal.
#![tactic(auto)]

ghost use Rattle.std.specs.Prelude.{◌≡◌};
ghost use Rattle.sctp_receive_result.specs.Result.{told, back};
ghost use Rattle.sctp_receive_packet_chunks.specs.Stops.{stop, stop_at};

use sctp_receive_result::refused;

// The chunk at a place of the packet, whose first is 12: where it ends and what follows it, or that the walk is over; 11 1 2.
pub fn chunk_at(
    packet: &[u8],
    at: usize,
    found: &mut bool,
    end: &mut usize,
    next: &mut usize,
) -> i32
    ensures { told (back result) (stop found.new end.new next.new) ≡ stop_at packet.now at }
{
    *found = false;
    *end = 0;
    *next = 0;
    match packet_chunks::chunk_at(packet, at) {
        Ok(Some(f)) => {
            *found = true;
            *end = f.end;
            *next = f.next;
            -1
        }
        Ok(None) => -1,
        Err(e) => refused(e),
    }
}
