// The counts that a TSN queue starts from.
#![tactic(auto)]

ghost use Rattle.std.specs.Prelude.{◌≡◌};
ghost use Rattle.payload_model.specs.Queue.{fresh};

use payload_model::{Counts, LOG};

// Nothing is held, and no duplicate is logged.
pub fn fresh() -> Counts
    ensures { result ≡ fresh }
{
    Counts {
        count: 0,
        n_bytes: 0,
        dups: 0,
        dup_tsn: [0u32; LOG],
    }
}
