// The order of TSNs, asked from the other side: after, at or after, and the same.
#![tactic(auto)]

ghost use Rattle.std.specs.Prelude.{◌≡◌, eqb};
ghost use Rattle.serial_model.specs.Serial.{after, at_or_after};

use serial_tsns::{sna32lt, sna32lte};

// Is the TSN i1 after i2?
pub fn sna32gt(i1: u32, i2: u32) -> bool
    ensures { result ≡ after 32 i1 i2 }
{
    sna32lt(i2, i1)
}

// Is the TSN i1 at or after i2?
pub fn sna32gte(i1: u32, i2: u32) -> bool
    ensures { result ≡ at_or_after 32 i1 i2 }
{
    sna32lte(i2, i1)
}

// Are the TSNs i1 and i2 the same?
pub fn sna32eq(i1: u32, i2: u32) -> bool
    ensures { result ≡ eqb i1 i2 }
{
    i1 == i2
}
