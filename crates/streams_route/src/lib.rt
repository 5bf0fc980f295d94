// A chunk pushed to one of eight sound streams: which way it goes.
#![tactic(auto)]

ghost use Rattle.std.specs.Prelude.{◌≡◌, false, ◌*◌, ◌<◌, length};
ghost use Rattle.refusal.specs.Told.{flag_told};
ghost use Rattle.reassembly_state.specs.Limits.{frags_most};
ghost use Rattle.reassembly_state.specs.Model as queue;
ghost use Rattle.reassembly_state.specs.State.{fragment_of};
ghost use Rattle.streams_model.specs.Limits.{streams_most};
ghost use Rattle.streams_model.specs.Room.{room_among};
ghost use Rattle.streams_model.specs.State.{state_of, unsound, view, own, after, laid};

use data_fields::ChunkPayloadData;
use refusal::Refusal;
use streams_model::Streams;

// To a stream of sound ones: false where the chunk is of another stream; else by its mark U.
pub fn to_stream(
    streams: &mut Streams,
    table: &mut [u32],
    pool: &mut [u8],
    stream: usize,
    chunk: ChunkPayloadData,
    user_data: &[u8],
) -> Result<bool, Refusal>
    requires table_len { length table.old ≡ 4 * frags_most }
    requires pool_value { unsound (state_of streams.old table.old pool.old) ≡ false }
    requires stream_lt_streams_most { stream < streams_most }
    ensures { after (flag_told result) (state_of streams.new table.new pool.new) ≡ laid (state_of streams.old table.old pool.old) stream (queue.push (room_among (view (state_of streams.old table.old pool.old)) stream (fragment_of chunk user_data.now)) (own (state_of streams.old table.old pool.old) stream) chunk.stream_identifier chunk.unordered (fragment_of chunk user_data.now)) }
{
    let own = streams.at(stream);
    if chunk.stream_identifier != own.si {
        return Ok(false);
    }
    let room = streams_room::has_room(*streams, stream, user_data.len());
    if chunk.unordered {
        return streams_unordered::push(streams, table, pool, stream, chunk, user_data, room);
    }
    streams_ordered::push(streams, table, pool, stream, chunk, user_data, room)
}
