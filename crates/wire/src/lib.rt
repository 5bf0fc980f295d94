// Big-endian fields in lent slices: read at a place.
#![tactic(auto)]

ghost use Rattle.std.specs.Prelude.{◌≡◌, ◌+◌, ◌≤◌, ◌<◌, length, take, drop};
ghost use Rattle.wire_model.specs.BigEndian.{big_endian};

// The byte as a wider number.
fn wide(x: u8) -> u32
    ensures { (result ≡ x) × (result < 256) }
{
    x as u32
}

// The byte that stands at a place.
pub fn get_u8(raw: &[u8], at: usize) -> u8
    requires { at + 1 ≤ length raw.now }
    ensures { take 1 (drop at raw.now) ≡ big_endian 1 result }
{
    raw[at]
}

// The number of two bytes that stands at a place.
pub fn get_u16(raw: &[u8], at: usize) -> u16
    requires { at + 2 ≤ length raw.now }
    ensures { take 2 (drop at raw.now) ≡ big_endian 2 result }
{
    let a = wide(raw[at]);
    let b = wide(raw[at + 1]);
    (a * 256 + b) as u16
}

// The number of four bytes that stands at a place.
pub fn get_u32(raw: &[u8], at: usize) -> u32
    requires { at + 4 ≤ length raw.now }
    ensures { take 4 (drop at raw.now) ≡ big_endian 4 result }
{
    let a = wide(raw[at]);
    let b = wide(raw[at + 1]);
    let c = wide(raw[at + 2]);
    let d = wide(raw[at + 3]);
    ((a * 256 + b) * 256 + c) * 256 + d
}
