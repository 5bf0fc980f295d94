// The counts that a reassembly queue starts from.
#![tactic(auto)]

ghost use Rattle.std.specs.Prelude.{◌≡◌};

use reassembly_state::Counts;

// SSN 0 is expected, and nothing is held.
pub fn fresh(si: u16, max_message_size: u32) -> Counts
    ensures { result ≡ record { si = si; next_ssn = 0; max_message_size = max_message_size; finished = 0; unordered = 0; ordered = 0; n_bytes = 0 } }
{
    Counts {
        si,
        next_ssn: 0,
        max_message_size,
        finished: 0,
        unordered: 0,
        ordered: 0,
        n_bytes: 0,
    }
}
