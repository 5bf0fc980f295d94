// Which way a push goes.
#![tactic(auto)]

ghost use Rattle.std.specs.Prelude.{◌≡◌};
ghost use Rattle.refusal.specs.Told.{flag_told};
ghost use Rattle.reassembly_state.specs.State.{state_of, after, pushed};

use data_fields::ChunkPayloadData;
use reassembly_parts::room;
use reassembly_state::{Counts, WORDS};
use refusal::Refusal;

// Refused where the counts are unsound, false where the chunk is of another stream; else by its mark U.
pub fn push(
    counts: &mut Counts,
    table: &mut [u32; WORDS],
    pool: &mut [u8],
    chunk: ChunkPayloadData,
    user_data: &[u8],
) -> Result<bool, Refusal>
    ensures { after (flag_told result) (state_of counts.new table.new pool.new) ≡ pushed (state_of counts.old table.old pool.old) chunk user_data.now }
{
    if counts.unsound(table, pool) {
        return Err(Refusal::Unsound);
    }
    if chunk.stream_identifier != counts.si {
        return Ok(false);
    }
    let room = room::has_room(*counts, user_data.len());
    if chunk.unordered {
        return reassembly_unordered::push(counts, table, pool, chunk, user_data, room);
    }
    reassembly_ordered::push(counts, table, pool, chunk, user_data, room)
}
