// A skip of ordered messages on one of eight streams that a cumulative point bounds.
#![tactic(auto)]

ghost use Rattle.std.specs.Prelude.{◌≡◌};
ghost use Rattle.reassembly_state.specs.Answers.{done_told};
ghost use Rattle.streams_model.specs.State.{state_of, after, forward_bounded};

use reassembly_state::WORDS;
use refusal::Refusal;
use streams_model::{STREAMS, Streams};

// Drops a stream's incomplete sets at or before an SSN that a cumulative point reaches, and expects the first set that it does not reach, or the
// SSN after the last, where that is later than what is expected; 19 where there is no such stream.
pub fn forward_tsn_for_ordered_bounded(
    streams: &mut Streams,
    table: &mut [u32; WORDS],
    pool: &mut [u8],
    stream: u16,
    last_ssn: u16,
    new_cumulative_tsn: u32,
) -> Result<(), Refusal>
    ensures { after (done_told result) (state_of streams.new table.new pool.new) ≡ forward_bounded (state_of streams.old table.old pool.old) stream last_ssn new_cumulative_tsn }
{
    if streams_counts::unsound(*streams, table, pool) {
        return Err(Refusal::Unsound);
    }
    let number = stream as usize;
    if STREAMS <= number {
        return Err(Refusal::NoStream);
    }
    streams_skips::skip_bounded(streams, table, pool, number, last_ssn, new_cumulative_tsn);
    Ok(())
}
