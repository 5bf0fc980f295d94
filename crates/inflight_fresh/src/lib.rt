// The counts that an in-flight queue starts from.
#![tactic(auto)]

ghost use Rattle.std.specs.Prelude.{◌≡◌};
ghost use Rattle.inflight_model.specs.Queue.{fresh};

use inflight_model::Counts;

// Nothing is held.
pub fn fresh() -> Counts
    ensures { result ≡ fresh }
{
    Counts {
        count: 0,
        n_bytes: 0,
    }
}
