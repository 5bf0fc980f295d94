// Skips of one of eight streams that are sound: what is dropped of it leaves the streams behind it further down.
#![tactic(auto)]

ghost use Rattle.std.specs.Prelude.{◌≡◌, false, ◌*◌, ◌<◌, length};
ghost use Rattle.reassembly_state.specs.Limits.{frags_most};
ghost use Rattle.reassembly_state.specs.Model.{skip_ordered, skip_unordered};
ghost use Rattle.reassembly_bounded.specs.Bounded.{skip_bounded};
ghost use Rattle.streams_model.specs.Limits.{streams_most};
ghost use Rattle.streams_model.specs.State.{state_of, unsound, own, with_own};

use streams_counts::Sum;
use streams_model::Streams;

// Drops incomplete sets at or before an SSN, and expects the one after it. The streams before it count as finished fragments of its queue.
pub fn skip_ordered(
    streams: &mut Streams,
    table: &mut [u32],
    pool: &mut [u8],
    stream: usize,
    last_ssn: u16,
)
    requires table_len { length table.old ≡ 4 * frags_most }
    requires pool_value { unsound (state_of streams.old table.old pool.old) ≡ false }
    requires stream_lt_streams_most { stream < streams_most }
    ensures { state_of streams.new table.new pool.new ≡ with_own (state_of streams.old table.old pool.old) stream (skip_ordered (own (state_of streams.old table.old pool.old) stream) last_ssn) }
{
    let place = streams_parts::among_front(*streams, stream);
    let mut left = place.queue;
    reassembly_skips::skip_ordered(&mut left, table, pool, last_ssn);
    streams_close::close_up(table, pool, place.queue, left, place.behind);
    let none = Sum { rows: 0, bytes: 0 };
    streams_parts::put_back(streams, stream, left, place.before, none);
}

// The same where a cumulative point bounds the skip: what it does not reach stays, and holds the expected SSN back.
pub fn skip_bounded(
    streams: &mut Streams,
    table: &mut [u32],
    pool: &mut [u8],
    stream: usize,
    last_ssn: u16,
    new_cumulative_tsn: u32,
)
    requires table_len { length table.old ≡ 4 * frags_most }
    requires pool_value { unsound (state_of streams.old table.old pool.old) ≡ false }
    requires stream_lt_streams_most { stream < streams_most }
    ensures { state_of streams.new table.new pool.new ≡ with_own (state_of streams.old table.old pool.old) stream (skip_bounded (own (state_of streams.old table.old pool.old) stream) last_ssn new_cumulative_tsn) }
{
    let place = streams_parts::among_front(*streams, stream);
    let mut left = place.queue;
    reassembly_bounded::skip_bounded(&mut left, table, pool, last_ssn, new_cumulative_tsn);
    streams_close::close_up(table, pool, place.queue, left, place.behind);
    let none = Sum { rows: 0, bytes: 0 };
    streams_parts::put_back(streams, stream, left, place.before, none);
}

// Drops loose unordered fragments from the front up to the first one after a TSN. The streams before it count as finished fragments of its queue,
// those behind it as ordered ones: the skip looks at neither.
pub fn skip_unordered(
    streams: &mut Streams,
    table: &mut [u32],
    pool: &mut [u8],
    stream: usize,
    new_cumulative_tsn: u32,
)
    requires table_len { length table.old ≡ 4 * frags_most }
    requires pool_value { unsound (state_of streams.old table.old pool.old) ≡ false }
    requires stream_lt_streams_most { stream < streams_most }
    ensures { state_of streams.new table.new pool.new ≡ with_own (state_of streams.old table.old pool.old) stream (skip_unordered (own (state_of streams.old table.old pool.old) stream) new_cumulative_tsn) }
{
    let place = streams_parts::among_all(*streams, stream);
    let mut left = place.queue;
    reassembly_skips::skip_unordered(&mut left, table, pool, new_cumulative_tsn);
    streams_parts::put_back(streams, stream, left, place.before, place.behind);
}
