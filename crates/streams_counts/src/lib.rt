// What every call on eight streams asks of their counts: how much stands before a stream and behind it, whether they are sound.
#![tactic(auto)]

ghost use Rattle.std.specs.Prelude.{◌≡◌, suc, ◌-◌, ◌*◌, ◌≤◌, ◌<◌, ltb, length, take, drop};
ghost use Rattle.reassembly_state.specs.Limits.{frags_most};
ghost use Rattle.reassembly_state.specs.State.{count};
ghost use Rattle.streams_model.specs.Limits.{streams_most};
ghost use Rattle.streams_model.specs.Shape.{queues_of};
ghost use Rattle.streams_model.specs.State.{state_of, rows_held, bytes_said, unsound};

use reassembly_state::{BYTES, Counts, FRAGMENTS};
use streams_model::{STREAMS, Streams};

// So many fragments, and so many bytes.
#[derive(Clone, Copy)]
pub struct Sum {
    pub rows: usize,
    pub bytes: usize,
}

// What the streams from one up to another hold by their counts.
fn held(streams: Streams, from: usize, to: usize) -> Sum
    requires from_le_to { from ≤ to }
    requires to_le_streams_most { to ≤ streams_most }
    requires streams_bound { rows_held (queues_of streams) ≤ frags_most }
    requires streams_bound_2 { bytes_said (queues_of streams) ≤ 16777216 * frags_most }
    ensures rows_value { result.rows ≡ rows_held (take (to - from) (drop from (queues_of streams))) }
    ensures bytes_value { result.bytes ≡ bytes_said (take (to - from) (drop from (queues_of streams))) }
{
    let mut rows: usize = 0;
    let mut bytes: usize = 0;
    for i in from..to {
        let queue = streams.at(i);
        rows += queue.finished + (queue.unordered + queue.ordered);
        bytes += queue.n_bytes;
    }
    Sum { rows, bytes }
}

// What stands before a stream's own.
pub fn before(streams: Streams, stream: usize) -> Sum
    requires stream_lt_streams_most { stream < streams_most }
    requires streams_bound { rows_held (queues_of streams) ≤ frags_most }
    requires streams_bound_2 { bytes_said (queues_of streams) ≤ 16777216 * frags_most }
    ensures { (result.rows ≡ rows_held (take stream (queues_of streams))) × (result.bytes ≡ bytes_said (take stream (queues_of streams))) }
{
    held(streams, 0, stream)
}

// What stands behind them.
pub fn behind(streams: Streams, stream: usize) -> Sum
    requires stream_lt_streams_most { stream < streams_most }
    requires streams_bound { rows_held (queues_of streams) ≤ frags_most }
    requires streams_bound_2 { bytes_said (queues_of streams) ≤ 16777216 * frags_most }
    ensures { (result.rows ≡ rows_held (drop (suc stream) (queues_of streams))) × (result.bytes ≡ bytes_said (drop (suc stream) (queues_of streams))) }
{
    held(streams, stream + 1, STREAMS)
}

// Whether a queue's fragments are above so many. The sum of the three counts might not fit.
fn above(queue: Counts, most: usize) -> bool
    ensures { result ≡ ltb most (count queue) }
{
    if most < queue.finished {
        return true;
    }
    let left = most - queue.finished;
    if left < queue.unordered {
        return true;
    }
    left - queue.unordered < queue.ordered
}

// Refusal 0: counts above the table together, a pool shorter than its limit, a place outside the pool, or a byte count that is not the sum of its
// stream's held lengths. No two places can share a byte.
pub fn unsound(streams: Streams, table: &[u32], pool: &[u8]) -> bool
    requires { length table.now ≡ 4 * frags_most }
    ensures { result ≡ unsound (state_of streams table.now pool.now) }
{
    let mut first: usize = 0;
    let mut bytes: usize = 0;
    for i in 0..STREAMS {
        let queue = streams.at(i);
        if above(queue, FRAGMENTS - first) {
            return true;
        }
        let n = queue.finished + (queue.unordered + queue.ordered);
        let sum = fragments::sum_long(table, FRAGMENTS, first, n);
        if sum != queue.n_bytes {
            return true;
        }
        first += n;
        bytes += sum;
    }
    let room = pool.len();
    if room < BYTES {
        return true;
    }
    room < bytes
}
