// An ordered chunk pushed to one of eight streams.
#![tactic(auto)]

ghost use Rattle.std.specs.Prelude.{◌≡◌, false, ◌+◌, ◌*◌, ◌<◌, ◌≤◌, length};
ghost use Rattle.wire_model.specs.Refusal.{none, says};
ghost use Rattle.refusal.specs.Told.{flag_told};
ghost use Rattle.reassembly_state.specs.Limits.{frags_most, bytes_most};
ghost use Rattle.reassembly_state.specs.Model.{keep_ordered, push_ordered};
ghost use Rattle.reassembly_state.specs.State as one;
ghost use Rattle.reassembly_state.specs.State.{fragment_of};
ghost use Rattle.reassembly_state.specs.Rows.{set_at, set_run};
ghost use Rattle.streams_model.specs.Limits.{streams_most};
ghost use Rattle.streams_model.specs.Shape.{queues_of};
ghost use Rattle.streams_model.specs.State.{state_of, rows_held, bytes_said, unsound, own, after, laid};
ghost use Rattle.streams_model.specs.Among.{Others, among_none, roomy_if, among};

use data_fields::ChunkPayloadData;
use refusal::Refusal;
use streams_counts::Sum;
use streams_model::Streams;
use streams_parts::Among;

// Stores the fragment in its set of run rows at index at, or in a new one; whether that is complete.
fn keep(
    streams: &mut Streams,
    table: &mut [u32],
    pool: &mut [u8],
    stream: usize,
    chunk: ChunkPayloadData,
    user_data: &[u8],
    place: Among,
    at: usize,
    run: usize,
) -> bool
    requires table_len { length table.old ≡ 4 * frags_most }
    requires pool_value { unsound (state_of streams.old table.old pool.old) ≡ false }
    requires stream_lt_streams_most { stream < streams_most }
    requires streams_bound { rows_held (queues_of streams.old) < frags_most }
    requires user_data_bound { bytes_said (queues_of streams.old) + length user_data.now ≤ bytes_most }
    requires others { Others (queues_of streams.old) stream place.before.rows place.before.bytes place.behind.rows place.behind.bytes }
    requires queue_value { place.queue ≡ among_none (queues_of streams.old) stream }
    requires at_value { at ≡ set_at (among (state_of streams.old table.old pool.old) stream 0 0) chunk.stream_sequence_number }
    requires run_value { run ≡ set_run (among (state_of streams.old table.old pool.old) stream 0 0) chunk.stream_sequence_number }
    ensures { after (says none result) (state_of streams.new table.new pool.new) ≡ laid (state_of streams.old table.old pool.old) stream (keep_ordered (own (state_of streams.old table.old pool.old) stream) (fragment_of chunk user_data.now)) }
{
    streams_open::make_room(*streams, table, pool, stream, chunk, user_data, place);
    let mut queue = place.queue;
    let complete = reassembly_ordered::keep(&mut queue, table, pool, chunk, user_data, at, run);
    let none = Sum { rows: 0, bytes: 0 };
    streams_parts::put_back(streams, stream, queue, place.before, none);
    complete
}

// Asks, and nothing is changed ahead of storing: the streams before it count as finished fragments of its queue.
pub fn push(
    streams: &mut Streams,
    table: &mut [u32],
    pool: &mut [u8],
    stream: usize,
    chunk: ChunkPayloadData,
    user_data: &[u8],
    room: bool,
) -> Result<bool, Refusal>
    requires table_len { length table.old ≡ 4 * frags_most }
    requires pool_value { unsound (state_of streams.old table.old pool.old) ≡ false }
    requires stream_lt_streams_most { stream < streams_most }
    requires roomy_if { roomy_if room (state_of streams.old table.old pool.old) (length user_data.now) }
    ensures { after (flag_told result) (state_of streams.new table.new pool.new) ≡ laid (state_of streams.old table.old pool.old) stream (push_ordered room (own (state_of streams.old table.old pool.old) stream) (fragment_of chunk user_data.now)) }
{
    let place = streams_parts::among_front(*streams, stream);
    let asked = reassembly_ask::ask(place.queue, table, chunk, user_data.len(), room);
    if !asked.keep? {
        return Ok(false);
    }
    let set = asked.set;
    Ok(keep(
        streams, table, pool, stream, chunk, user_data, place, set.at, set.run,
    ))
}
