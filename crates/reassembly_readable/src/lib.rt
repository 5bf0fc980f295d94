// Whether a message is there to be taken.
#![tactic(auto)]

ghost use Rattle.std.specs.Prelude.{◌≡◌};
ghost use Rattle.refusal.specs.Told.{flag_told};
ghost use Rattle.reassembly_state.specs.State.{state_of, is_readable};

use reassembly_state::{Counts, WORDS};
use refusal::Refusal;

// Whether a message can be taken.
pub fn is_readable(counts: Counts, table: &[u32; WORDS], pool: &[u8]) -> Result<bool, Refusal>
    ensures { flag_told result ≡ is_readable (state_of counts table.now pool.now) }
{
    if counts.unsound(table, pool) {
        return Err(Refusal::Unsound);
    }
    let turn = reassembly_turn::in_turn(counts, table);
    Ok(turn.from < turn.to)
}
