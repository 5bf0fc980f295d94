// The order of TSNs: each yes or no reads the answer of one comparison.
#![tactic(auto)]

ghost use Rattle.std.specs.Prelude.{◌≡◌};
ghost use Rattle.serial_model.specs.Serial.{before, at_or_before};

use serial_compare::tsn_compare;
use serial_model::earlier;

// Is the TSN i1 before i2?
pub fn sna32lt(i1: u32, i2: u32) -> bool
    ensures { result ≡ before 32 i1 i2 }
{
    earlier(tsn_compare(i1, i2))
}

// Is the TSN i1 at or before i2?
pub fn sna32lte(i1: u32, i2: u32) -> bool
    ensures { result ≡ at_or_before 32 i1 i2 }
{
    i1 == i2 || sna32lt(i1, i2)
}
