// Room made for a fragment of one of eight streams: what stands behind the stream moves up.
#![tactic(auto)]

ghost use Rattle.std.specs.Prelude.{◌≡◌, false, ◌+◌, ◌*◌, ◌<◌, ◌≤◌, length};
ghost use Rattle.reassembly_state.specs.Limits.{frags_most, bytes_most};
ghost use Rattle.reassembly_state.specs.State as one;
ghost use Rattle.reassembly_state.specs.State.{fragment_of};
ghost use Rattle.streams_model.specs.Limits.{streams_most};
ghost use Rattle.streams_model.specs.Shape.{queues_of};
ghost use Rattle.streams_model.specs.State.{state_of, rows_held, bytes_said, unsound};
ghost use Rattle.streams_model.specs.Among.{Others, among_none, Ready};

use data_fields::ChunkPayloadData;
use reassembly_parts::record;
use reassembly_state::FRAGMENTS;
use streams_model::Streams;
use streams_parts::Among;

// Room for one more fragment: what stands behind the stream's own moves up, and the new one stands in between for now.
pub fn make_room(
    streams: Streams,
    table: &mut [u32],
    pool: &mut [u8],
    stream: usize,
    chunk: ChunkPayloadData,
    user_data: &[u8],
    place: Among,
)
    requires table_len { length table.old ≡ 4 * frags_most }
    requires pool_value { unsound (state_of streams table.old pool.old) ≡ false }
    requires stream_lt_streams_most { stream < streams_most }
    requires streams_bound { rows_held (queues_of streams) < frags_most }
    requires user_data_bound { bytes_said (queues_of streams) + length user_data.now ≤ bytes_most }
    requires others { Others (queues_of streams) stream place.before.rows place.before.bytes place.behind.rows place.behind.bytes }
    requires queue_value { place.queue ≡ among_none (queues_of streams) stream }
    ensures { Ready (state_of streams table.old pool.old) stream (fragment_of chunk user_data.now) (one.state_of place.queue table.new pool.new) }
{
    let behind = place.behind;
    if behind.rows == 0 {
        return;
    }
    let queue = place.queue;
    let row = record::row_of(chunk, user_data.len());
    let at = queue.finished + (queue.unordered + queue.ordered);
    let held = at + behind.rows;
    let bytes = queue.n_bytes + behind.bytes;
    fragment_put::put_fragment(table, FRAGMENTS, held, pool, bytes, at, row, user_data);
}
