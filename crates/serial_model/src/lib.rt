// Numbers that wrap: TSNs of 32 bits, SSNs of 16. What each call of `serial` answers is stated once over the width, in specs/Serial.antt.
#![tactic(auto)]

ghost use Rattle.std.specs.Prelude.{◌≡◌};
ghost use Rattle.serial_model.specs.Compared.{is_before};

// How a number stands to another. Opposite: the distance is the lowest value, as far one way as the other, and neither is before the other.
#[derive(Clone, Copy)]
pub enum Order {
    Earlier,
    Same,
    Later,
    Opposite,
}

// Before is the answer Earlier, and no other: at exactly half way neither is before the other.
pub fn earlier(order: Order) -> bool
    ensures { result ≡ is_before order }
{
    match order {
        Order::Earlier => true,
        Order::Same => false,
        Order::Later => false,
        Order::Opposite => false,
    }
}
