// What is told of a cause that was read, put into a lent list.
#![tactic(auto)]

ghost use Rattle.std.specs.Prelude.{◌≡◌, ◌+◌, ◌-◌, ◌≤◌, [], ◌∷◌};
ghost use Rattle.cause_parts.specs.Causes.{cause};
ghost use Rattle.cause_parts.specs.Lists.{field_of, noted};

use cause_parts::CauseHeader;

// What is told of a cause: its code, its depth, the start of its value, the value's length.
pub const CODES: u8 = 0;

pub const DEPTHS: u8 = 1;

pub const STARTS: u8 = 2;

pub const SIZES: u8 = 3;

// One of these, of the cause at a place.
fn field(told: u8, at: usize, depth: u16, h: CauseHeader) -> u16
    requires at_bound { at + 4 ≤ 65535 }
    requires le_size { 4 ≤ h.size }
    ensures { result ≡ field_of told (cause h.code depth (at + 4) (h.size - 4)) }
{
    if told == CODES {
        return h.code;
    }
    if told == DEPTHS {
        return depth;
    }
    if told == STARTS {
        let start = at + 4;
        return start as u16;
    }
    h.size - 4
}

// It goes into a list, as number n, where the list has that place.
pub fn note(told: u8, n: usize, at: usize, depth: u16, h: CauseHeader, list: &mut [u16])
    requires at_bound { at + 4 ≤ 65535 }
    requires le_size { 4 ≤ h.size }
    ensures { list.new ≡ noted told n (cause h.code depth (at + 4) (h.size - 4) ∷ []) list.old }
{
    if n < list.len() {
        list[n] = field(told, at, depth, h);
    }
}
