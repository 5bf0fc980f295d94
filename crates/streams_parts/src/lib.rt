// One stream among the others: its counts with the others' in them, and its own again.
#![tactic(auto)]

ghost use Rattle.std.specs.Prelude.{◌≡◌, ◌+◌, ◌*◌, ◌≤◌, ◌<◌, set};
ghost use Rattle.reassembly_state.specs.Limits.{frags_most};
ghost use Rattle.reassembly_state.specs.State.{count};
ghost use Rattle.streams_model.specs.Limits.{streams_most};
ghost use Rattle.streams_model.specs.Shape.{queues_of};
ghost use Rattle.streams_model.specs.State.{rows_held, bytes_said};
ghost use Rattle.streams_model.specs.Among.{among_counts, alone_counts, Others, among_all, among_none};

use reassembly_state::Counts;
use streams_counts::Sum;
use streams_model::Streams;

// The counts of a stream with those before it among its finished fragments, and so many behind it among its ordered ones.
fn counts_among(own: Counts, before: Sum, behind: Sum) -> Counts
    requires rows_bound { before.rows + (count own + behind.rows) ≤ frags_most }
    requires bytes_bound { before.bytes + (own.n_bytes + behind.bytes) ≤ 16777216 * frags_most }
    ensures { result ≡ among_counts own before.rows before.bytes behind.rows behind.bytes }
{
    let mut queue = own;
    queue.finished = before.rows + own.finished;
    queue.ordered = own.ordered + behind.rows;
    queue.n_bytes = before.bytes + (own.n_bytes + behind.bytes);
    queue
}

// A stream's own counts again.
fn counts_alone(queue: Counts, before: Sum, behind: Sum) -> Counts
    requires rows_le_finished { before.rows ≤ queue.finished }
    requires rows_le_ordered { behind.rows ≤ queue.ordered }
    requires bytes_bound { before.bytes + behind.bytes ≤ queue.n_bytes }
    ensures { result ≡ alone_counts queue before.rows before.bytes behind.rows behind.bytes }
{
    let mut own = queue;
    own.finished = queue.finished - before.rows;
    own.ordered = queue.ordered - behind.rows;
    own.n_bytes = queue.n_bytes - (before.bytes + behind.bytes);
    own
}

// What stands before a stream's own and what stands behind them, and its counts with both in them.
#[derive(Clone, Copy)]
pub struct Among {
    pub before: Sum,
    pub behind: Sum,
    pub queue: Counts,
}

pub fn among_all(streams: Streams, stream: usize) -> Among
    requires stream_lt_streams_most { stream < streams_most }
    requires streams_bound { rows_held (queues_of streams) ≤ frags_most }
    requires streams_bound_2 { bytes_said (queues_of streams) ≤ 16777216 * frags_most }
    ensures others { Others (queues_of streams) stream result.before.rows result.before.bytes result.behind.rows result.behind.bytes }
    ensures queue_value { result.queue ≡ among_all (queues_of streams) stream }
{
    let before = streams_counts::before(streams, stream);
    let behind = streams_counts::behind(streams, stream);
    let queue = counts_among(streams.at(stream), before, behind);
    Among {
        before,
        behind,
        queue,
    }
}

// The same with what stands before it alone in its counts.
pub fn among_front(streams: Streams, stream: usize) -> Among
    requires stream_lt_streams_most { stream < streams_most }
    requires streams_bound { rows_held (queues_of streams) ≤ frags_most }
    requires streams_bound_2 { bytes_said (queues_of streams) ≤ 16777216 * frags_most }
    ensures others { Others (queues_of streams) stream result.before.rows result.before.bytes result.behind.rows result.behind.bytes }
    ensures queue_value { result.queue ≡ among_none (queues_of streams) stream }
{
    let before = streams_counts::before(streams, stream);
    let behind = streams_counts::behind(streams, stream);
    let none = Sum { rows: 0, bytes: 0 };
    let queue = counts_among(streams.at(stream), before, none);
    Among {
        before,
        behind,
        queue,
    }
}

// Such counts of a stream, which are made its own again.
pub fn put_back(streams: &mut Streams, stream: usize, queue: Counts, before: Sum, behind: Sum)
    requires stream_lt_streams_most { stream < streams_most }
    requires rows_le_finished { before.rows ≤ queue.finished }
    requires rows_le_ordered { behind.rows ≤ queue.ordered }
    requires bytes_bound { before.bytes + behind.bytes ≤ queue.n_bytes }
    ensures { queues_of streams.new ≡ set (queues_of streams.old) stream (alone_counts queue before.rows before.bytes behind.rows behind.bytes) }
{
    let own = counts_alone(queue, before, behind);
    streams.put_at(stream, own);
}
