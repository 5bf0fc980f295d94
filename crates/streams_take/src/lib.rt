// The message that is next to be taken of one of eight streams, taken.
#![tactic(auto)]

ghost use Rattle.std.specs.Prelude.{◌≡◌};
ghost use Rattle.reassembly_state.specs.Answers.{took_told};
ghost use Rattle.streams_model.specs.State.{state_of, reads, read};

use chunks::Chunks;
use reassembly_state::WORDS;
use refusal::Refusal;
use streams_model::{STREAMS, Streams};

// Takes the oldest finished unordered message of a stream, else its first ordered set if that is complete and not after the expected one, to the
// front of the lent buffer; 10 where that is too short, 19 where there is no such stream.
pub fn read(
    streams: &mut Streams,
    table: &mut [u32; WORDS],
    pool: &mut [u8],
    stream: u16,
    buffer: &mut [u8],
) -> Result<Option<Chunks>, Refusal>
    ensures { reads (took_told result) (state_of streams.new table.new pool.new) buffer.new ≡ read (state_of streams.old table.old pool.old) stream buffer.old }
{
    if streams_counts::unsound(*streams, table, pool) {
        return Err(Refusal::Unsound);
    }
    let number = stream as usize;
    if STREAMS <= number {
        return Err(Refusal::NoStream);
    }
    streams_turn::take(streams, table, pool, number, buffer)
}
