// The signed distance between numbers that wrap.
#![tactic(auto)]

ghost use Rattle.std.specs.Prelude.{◌≡◌};
ghost use Rattle.serial_model.specs.Serial.{distance};

use serial_steps::{ssn_offset, tsn_offset};

// The signed distance from the TSN a to b.
pub fn tsn_distance(a: u32, b: u32) -> i64
    ensures { result ≡ distance 32 a b }
{
    let d = tsn_offset(a, b);
    if d < 0x8000_0000 {
        d as i64
    } else {
        (d as i64) - 0x1_0000_0000
    }
}

// The signed distance from the SSN a to b.
pub fn ssn_distance(a: u16, b: u16) -> i32
    ensures { result ≡ distance 16 a b }
{
    let d = ssn_offset(a, b);
    if d < 0x8000 {
        d as i32
    } else {
        (d as i32) - 0x1_0000
    }
}
