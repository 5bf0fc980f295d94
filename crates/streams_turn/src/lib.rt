// The message that is next to be taken of one of eight streams: where it stands, and taking it, of sound streams.
#![tactic(auto)]

ghost use Rattle.std.specs.Prelude.{◌≡◌, List, true, false, cond, ℕ, ◌+◌, ◌*◌, ◌<◌, ◌≤◌, ltb, length, set};
ghost use Rattle.reassembly_state.specs.Limits.{frags_most};
ghost use Rattle.reassembly_state.specs.Model.{taken};
ghost use Rattle.reassembly_state.specs.Answers.{took_told};
ghost use Rattle.reassembly_state.specs.Rows.{without_message};
ghost use Rattle.streams_model.specs.Limits.{streams_most};
ghost use Rattle.streams_model.specs.Shape.{queues_of};
ghost use Rattle.streams_model.specs.State.{state_of, rows_held, unsound, own, reads, lay_taken};
ghost use Rattle.streams_model.specs.Among.{among_none, Others};
ghost use Rattle.streams_turn.specs.Turned.{Turned};

use chunks::Chunks;
use loose_fragments::Span;
use reassembly_state::FRAGMENTS;
use refusal::Refusal;
use streams_model::Streams;
use streams_parts::Among;

// Where it stands among all that is held; an empty run where there is none.
pub fn in_turn(streams: Streams, table: &[u32], stream: usize, place: Among) -> Span
    requires table_len { length table.now ≡ 4 * frags_most }
    requires stream_lt_streams_most { stream < streams_most }
    requires others { Others (queues_of streams) stream place.before.rows place.before.bytes place.behind.rows place.behind.bytes }
    requires queue_value { place.queue ≡ among_none (queues_of streams) stream }
    requires streams_bound { rows_held (queues_of streams) ≤ frags_most }
    ensures { (pool : List ℕ) → unsound (state_of streams table.now pool) ≡ false → Turned (state_of streams table.now pool) stream result.from result.to }
{
    let own = streams.at(stream);
    let before = place.before;
    let from = before.rows;
    if 0 < own.finished {
        let k = reassembly_turn::oldest_finished(table, from, own.finished);
        return Span { from, to: from + k };
    }
    let first = from + own.unordered;
    let run = reassembly_turn::ready(place.queue, table);
    Span {
        from: first,
        to: first + run,
    }
}

// Takes the message of k fragments at row `from` of all that is held.
fn take_run(
    streams: &mut Streams,
    table: &mut [u32],
    pool: &mut [u8],
    stream: usize,
    buffer: &mut [u8],
    place: Among,
    from: usize,
    k: usize,
) -> Result<Option<Chunks>, Refusal>
    requires table_len { length table.old ≡ 4 * frags_most }
    requires pool_value { unsound (state_of streams.old table.old pool.old) ≡ false }
    requires stream_lt_streams_most { stream < streams_most }
    requires others { Others (queues_of streams.old) stream place.before.rows place.before.bytes place.behind.rows place.behind.bytes }
    requires queue_value { place.queue ≡ among_none (queues_of streams.old) stream }
    requires turned { Turned (state_of streams.old table.old pool.old) stream from (from + k) }
    requires k_nonzero { 0 < k }
    ensures { reads (took_told result) (state_of streams.new table.new pool.new) buffer.new ≡ lay_taken (state_of streams.old table.old pool.old) stream (taken (own (state_of streams.old table.old pool.old) stream) buffer.old) }
{
    let queue = place.queue;
    let behind = place.behind;
    let mut own = streams.at(stream);
    let held = queue.finished + (queue.unordered + queue.ordered) + behind.rows;
    let bytes = queue.n_bytes + behind.bytes;
    let off = fragments::sum_long(table, FRAGMENTS, 0, from);
    let ordered = own.finished == 0;
    let hand = reassembly_message::take_among(
        table, pool, buffer, held, bytes, from, k, off, ordered,
    )?;
    reassembly_turn::without(&mut own, k, hand.size, hand.ssn);
    streams.put_at(stream, own);
    Ok(Some(hand))
}

// Takes it to the front of the lent buffer.
pub fn take(
    streams: &mut Streams,
    table: &mut [u32],
    pool: &mut [u8],
    stream: usize,
    buffer: &mut [u8],
) -> Result<Option<Chunks>, Refusal>
    requires table_len { length table.old ≡ 4 * frags_most }
    requires pool_value { unsound (state_of streams.old table.old pool.old) ≡ false }
    requires stream_lt_streams_most { stream < streams_most }
    ensures { reads (took_told result) (state_of streams.new table.new pool.new) buffer.new ≡ lay_taken (state_of streams.old table.old pool.old) stream (taken (own (state_of streams.old table.old pool.old) stream) buffer.old) }
{
    let place = streams_parts::among_front(*streams, stream);
    let turn = in_turn(*streams, table, stream, place);
    let from = turn.from;
    let k = turn.to - from;
    if k == 0 {
        return Ok(None);
    }
    take_run(streams, table, pool, stream, buffer, place, from, k)
}
