// A skip of ordered messages on one of eight streams.
#![tactic(auto)]

ghost use Rattle.std.specs.Prelude.{◌≡◌};
ghost use Rattle.reassembly_state.specs.Answers.{done_told};
ghost use Rattle.streams_model.specs.State.{state_of, after, forward_ordered};

use reassembly_state::WORDS;
use refusal::Refusal;
use streams_model::{STREAMS, Streams};

// Drops a stream's incomplete sets at or before an SSN, and expects the one after it; 19 where there is no such stream.
pub fn forward_tsn_for_ordered(
    streams: &mut Streams,
    table: &mut [u32; WORDS],
    pool: &mut [u8],
    stream: u16,
    last_ssn: u16,
) -> Result<(), Refusal>
    ensures { after (done_told result) (state_of streams.new table.new pool.new) ≡ forward_ordered (state_of streams.old table.old pool.old) stream last_ssn }
{
    if streams_counts::unsound(*streams, table, pool) {
        return Err(Refusal::Unsound);
    }
    let number = stream as usize;
    if STREAMS <= number {
        return Err(Refusal::NoStream);
    }
    streams_skips::skip_ordered(streams, table, pool, number, last_ssn);
    Ok(())
}
