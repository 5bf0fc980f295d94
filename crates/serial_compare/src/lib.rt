// How a number that wraps stands to another: one comparison with four answers.
#![tactic(auto)]

ghost use Rattle.std.specs.Prelude.{◌≡◌};
ghost use Rattle.serial_model.specs.Serial.{compared};

use serial_model::Order;
use serial_steps::{ssn_offset, tsn_offset};

// How the TSN a stands to b.
pub fn tsn_compare(a: u32, b: u32) -> Order
    ensures { result ≡ compared 32 a b }
{
    let steps = tsn_offset(a, b);
    if steps < 0x8000_0000 {
        if 0 < steps {
            return Order::Earlier;
        }
        return Order::Same;
    }
    if steps == 0x8000_0000 {
        return Order::Opposite;
    }
    Order::Later
}

// How the SSN a stands to b.
pub fn ssn_compare(a: u16, b: u16) -> Order
    ensures { result ≡ compared 16 a b }
{
    let steps = ssn_offset(a, b);
    if steps < 0x8000 {
        if 0 < steps {
            return Order::Earlier;
        }
        return Order::Same;
    }
    if steps == 0x8000 {
        return Order::Opposite;
    }
    Order::Later
}
