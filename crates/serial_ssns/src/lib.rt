// The order of SSNs: each yes or no reads the answer of one comparison.
#![tactic(auto)]

ghost use Rattle.std.specs.Prelude.{◌≡◌};
ghost use Rattle.serial_model.specs.Serial.{before, at_or_before};

use serial_compare::ssn_compare;
use serial_model::earlier;

// Is the SSN i1 before i2?
pub fn sna16lt(i1: u16, i2: u16) -> bool
    ensures { result ≡ before 16 i1 i2 }
{
    earlier(ssn_compare(i1, i2))
}

// Is the SSN i1 at or before i2?
pub fn sna16lte(i1: u16, i2: u16) -> bool
    ensures { result ≡ at_or_before 16 i1 i2 }
{
    i1 == i2 || sna16lt(i1, i2)
}
