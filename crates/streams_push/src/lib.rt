// A chunk pushed to one of eight streams: what is refused before it is looked at.
#![tactic(auto)]

ghost use Rattle.std.specs.Prelude.{◌≡◌};
ghost use Rattle.refusal.specs.Told.{flag_told};
ghost use Rattle.streams_model.specs.State.{state_of, after, pushed};

use data_fields::ChunkPayloadData;
use reassembly_state::WORDS;
use refusal::Refusal;
use streams_model::{STREAMS, Streams};

// Stores the chunk with its user data in the queue of a stream: true where that completes a message. False where it is of another stream, old, or
// there already; 6 where the message would be too large; 8 where the streams' draws would add to more than the common part; 19 where there is no
// such stream.
pub fn push(
    streams: &mut Streams,
    table: &mut [u32; WORDS],
    pool: &mut [u8],
    stream: u16,
    chunk: ChunkPayloadData,
    user_data: &[u8],
) -> Result<bool, Refusal>
    ensures { after (flag_told result) (state_of streams.new table.new pool.new) ≡ pushed (state_of streams.old table.old pool.old) stream chunk user_data.now }
{
    if streams_counts::unsound(*streams, table, pool) {
        return Err(Refusal::Unsound);
    }
    let number = stream as usize;
    if STREAMS <= number {
        return Err(Refusal::NoStream);
    }
    streams_route::to_stream(streams, table, pool, number, chunk, user_data)
}
