// Registers that go through bytes: one alone, and several side by side that are then made one.
#![tactic(auto)]

ghost use Rattle.std.specs.Prelude.{◌≡◌, ◌*◌, ◌<◌, ◌≤◌, length};
ghost use Rattle.crc32c_table.specs.Crc.{bit_step, byte_step, through};
ghost use Rattle.crc32c_table.specs.Table.{Rule};
ghost use Rattle.crc32c_lanes.specs.Parts.{Quarters, AfterZeros};

const POLYNOMIAL: u32 = 0x82F6_3B78;

// The byte as a wider number.
fn wide(x: u8) -> u32
    ensures { (result ≡ x) × (result < 256) }
{
    x as u32
}

// A byte goes in.
fn step(words: &[u32; 256], register: u32, byte: u8) -> u32
    requires { Rule words.now }
    ensures { result ≡ byte_step register byte }
{
    let low = (wide(byte) ^ register) % 256;
    register >> 8 ^ words[low as usize]
}

// The register after these bytes.
pub fn one(words: &[u32; 256], register: u32, bytes: &[u8]) -> u32
    requires { Rule words.now }
    ensures { result ≡ through register bytes.now }
{
    let mut r = register;
    for &byte in bytes {
        r = step(words, r, byte);
    }
    r
}

// Where four parts end, each but the first from an empty register, and where the highest bit ends after as many zeros.
#[derive(Clone, Copy)]
pub struct Ends {
    pub first: u32,
    pub second: u32,
    pub third: u32,
    pub fourth: u32,
    pub far: u32,
}

// Four parts of the same length, side by side.
pub fn four(words: &[u32; 256], register: u32, bytes: &[u8], part: usize) -> Ends
    requires { Rule words.now × (4 * part ≤ length bytes.now) }
    ensures { Quarters register bytes.now part result.first result.second result.third result.fourth result.far }
{
    let mut a = register;
    let mut b: u32 = 0;
    let mut c: u32 = 0;
    let mut d: u32 = 0;
    let mut far: u32 = 0x8000_0000;
    for i in 0..part {
        a = step(words, a, bytes[i]);
        b = step(words, b, bytes[part + i]);
        c = step(words, c, bytes[2 * part + i]);
        d = step(words, d, bytes[3 * part + i]);
        far = step(words, far, 0);
    }
    Ends {
        first: a,
        second: b,
        third: c,
        fourth: d,
        far,
    }
}

// A bit goes out.
fn bit_out(register: u32) -> u32
    ensures { result ≡ bit_step register }
{
    register % 2 * POLYNOMIAL ^ register >> 1
}

// The register after zeros, by what they make of its highest bit: bit by bit, the highest first.
pub fn after_zeros(register: u32, far: u32) -> u32
    ensures { AfterZeros far register result }
{
    let mut sum: u32 = 0;
    let mut rest = register;
    let mut bit = far;
    for _i in 0..u32::BITS {
        sum = sum ^ (rest >> 31) * bit;
        rest = rest << 1;
        bit = bit_out(bit);
    }
    sum
}
