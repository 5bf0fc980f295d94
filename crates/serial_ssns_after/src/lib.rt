// The order of SSNs, asked from the other side: after, at or after, and the same.
#![tactic(auto)]

ghost use Rattle.std.specs.Prelude.{◌≡◌, eqb};
ghost use Rattle.serial_model.specs.Serial.{after, at_or_after};

use serial_ssns::{sna16lt, sna16lte};

// Is the SSN i1 after i2?
pub fn sna16gt(i1: u16, i2: u16) -> bool
    ensures { result ≡ after 16 i1 i2 }
{
    sna16lt(i2, i1)
}

// Is the SSN i1 at or after i2?
pub fn sna16gte(i1: u16, i2: u16) -> bool
    ensures { result ≡ at_or_after 16 i1 i2 }
{
    sna16lte(i2, i1)
}

// Are the SSNs i1 and i2 the same?
pub fn sna16eq(i1: u16, i2: u16) -> bool
    ensures { result ≡ eqb i1 i2 }
{
    i1 == i2
}
