// How a number stands to another, as a number for C.
#![tactic(auto)]

ghost use Rattle.std.specs.Prelude.{◌≡◌};
ghost use Rattle.serial_model.specs.Serial.{order_number};

use serial_model::Order;

// The answer's number: 0 earlier, 1 same, 2 later, 3 opposite.
pub fn number(order: Order) -> u8
    ensures { result ≡ order_number order }
{
    match order {
        Order::Earlier => 0,
        Order::Same => 1,
        Order::Later => 2,
        Order::Opposite => 3,
    }
}
