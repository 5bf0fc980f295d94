// Skips of any queue: incomplete ordered sets up to an SSN, and loose unordered fragments up to a TSN, dropped of a sound one.
#![tactic(auto)]

ghost use Rattle.std.specs.Prelude.{◌≡◌};
ghost use Rattle.reassembly_state.specs.Answers.{done_told};
ghost use Rattle.reassembly_state.specs.State.{state_of, after, forward_ordered, forward_unordered};

use reassembly_state::{Counts, WORDS};
use refusal::Refusal;

// Drops incomplete sets at or before an SSN, and expects the one after it.
pub fn forward_tsn_for_ordered(
    counts: &mut Counts,
    table: &mut [u32; WORDS],
    pool: &mut [u8],
    last_ssn: u16,
) -> Result<(), Refusal>
    ensures { after (done_told result) (state_of counts.new table.new pool.new) ≡ forward_ordered (state_of counts.old table.old pool.old) last_ssn }
{
    if counts.unsound(table, pool) {
        return Err(Refusal::Unsound);
    }
    reassembly_skips::skip_ordered(counts, table, pool, last_ssn);
    Ok(())
}

// Drops loose unordered fragments from the front up to the first one after a TSN.
pub fn forward_tsn_for_unordered(
    counts: &mut Counts,
    table: &mut [u32; WORDS],
    pool: &mut [u8],
    new_cumulative_tsn: u32,
) -> Result<(), Refusal>
    ensures { after (done_told result) (state_of counts.new table.new pool.new) ≡ forward_unordered (state_of counts.old table.old pool.old) new_cumulative_tsn }
{
    if counts.unsound(table, pool) {
        return Err(Refusal::Unsound);
    }
    reassembly_skips::skip_unordered(counts, table, pool, new_cumulative_tsn);
    Ok(())
}
