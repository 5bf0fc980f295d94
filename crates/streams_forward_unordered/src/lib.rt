// A skip of unordered fragments on one of eight streams.
#![tactic(auto)]

ghost use Rattle.std.specs.Prelude.{◌≡◌};
ghost use Rattle.reassembly_state.specs.Answers.{done_told};
ghost use Rattle.streams_model.specs.State.{state_of, after, forward_unordered};

use reassembly_state::WORDS;
use refusal::Refusal;
use streams_model::{STREAMS, Streams};

// Drops a stream's loose unordered fragments from the front up to the first one after a TSN; 19 where there is no such stream.
pub fn forward_tsn_for_unordered(
    streams: &mut Streams,
    table: &mut [u32; WORDS],
    pool: &mut [u8],
    stream: u16,
    new_cumulative_tsn: u32,
) -> Result<(), Refusal>
    ensures { after (done_told result) (state_of streams.new table.new pool.new) ≡ forward_unordered (state_of streams.old table.old pool.old) stream new_cumulative_tsn }
{
    if streams_counts::unsound(*streams, table, pool) {
        return Err(Refusal::Unsound);
    }
    let number = stream as usize;
    if STREAMS <= number {
        return Err(Refusal::NoStream);
    }
    streams_skips::skip_unordered(streams, table, pool, number, new_cumulative_tsn);
    Ok(())
}
