// What the C call that pushes to the in-flight queue is made of.
#![tactic(auto)]

ghost use Rattle.std.specs.Prelude.{◌≡◌};
ghost use Rattle.payload_model.specs.Queue.{row_of};
ghost use Rattle.inflight_model.specs.Queue.{after, pushed_no_check};
ghost use Rattle.sctp_receive_result.specs.Result.{done};
ghost use Rattle.sctp_receive_flight.specs.InFlight.{flight_from};

use data_fields::ChunkPayloadData;
use inflight_queue::{TSNS, WORDS};

// Stores the chunk by its TSN, and the number of its message beside it; 18 where the TSN is held, 8 where no room is left.
pub fn push_no_check(
    count: &mut usize,
    n_bytes: &mut usize,
    table: &mut [u32; WORDS],
    messages: &mut [u64; TSNS],
    chunk: ChunkPayloadData,
    size: u16,
    message: u64,
) -> i32
    ensures { after (done result) (flight_from count.new n_bytes.new table.new messages.new) ≡ pushed_no_check (flight_from count.old n_bytes.old table.old messages.old) (row_of chunk size) message }
{
    let mut queue = sctp_receive_flight::queue(*count, *n_bytes);
    let answer = queue.push_no_check(table, messages, chunk, size, message);
    *count = queue.counts.count;
    *n_bytes = queue.counts.n_bytes;
    sctp_receive_flight::done(answer)
}
