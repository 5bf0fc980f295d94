// The steps between numbers that wrap: the next one, and how many there are from one to another.
#![tactic(auto)]

ghost use Rattle.std.specs.Prelude.{◌≡◌};
ghost use Rattle.serial_model.specs.Serial.{next, ahead};

// The TSN after a.
pub fn tsn_next(a: u32) -> u32
    ensures { result ≡ next 32 a }
{
    std::num::wrapping_add_u32(a, 1)
}

// The SSN after a.
pub fn ssn_next(a: u16) -> u16
    ensures { result ≡ next 16 a }
{
    std::num::wrapping_add_u16(a, 1)
}

// How many steps the TSN `to` is ahead of `from`.
pub fn tsn_offset(from: u32, to: u32) -> u32
    ensures { result ≡ ahead 32 from to }
{
    std::num::wrapping_sub_u32(to, from)
}

// How many steps the SSN `to` is ahead of `from`.
pub fn ssn_offset(from: u16, to: u16) -> u16
    ensures { result ≡ ahead 16 from to }
{
    std::num::wrapping_sub_u16(to, from)
}
