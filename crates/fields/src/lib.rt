// What the kinds of chunks write: the header with fields of fixed widths, and lists of 4-byte entries. Each is put at the front of what is lent.
#![tactic(auto)]

ghost use Rattle.std.specs.Prelude.{◌≡◌, ◌++◌, ◌+◌, ◌*◌, ◌≤◌, length};
ghost use Rattle.wire_model.specs.BigEndian.{big_endian, over};
ghost use Rattle.chunk.specs.Layout.{header, header_bytes};
ghost use Rattle.entries.specs.Pairs.{pairs, words};

use entries::put_pairs;

// A chunk's header: type, flags and length.
fn put_header(out: &mut [u8], kind: u8, flags: u8, size: u16)
    requires { 4 ≤ length out.old }
    ensures { out.new ≡ over out.old (header_bytes (header kind flags size)) }
{
    wire_put::put_u8(out, kind);
    wire_put::put_u8(&mut out[1..], flags);
    wire_put::put_u16(&mut out[2..], size);
}

// The header, and a field of 4 bytes behind it.
pub fn put_front_4(out: &mut [u8], kind: u8, flags: u8, size: u16, a: u32)
    requires { 8 ≤ length out.old }
    ensures { out.new ≡ over out.old (header_bytes (header kind flags size) ++ big_endian 4 a) }
{
    put_header(out, kind, flags, size);
    wire_put::put_u32(&mut out[4..], a);
}

// The header, and fields of 4, 4, 2 and 2 bytes behind it.
pub fn put_front_4422(
    out: &mut [u8],
    kind: u8,
    flags: u8,
    size: u16,
    a: u32,
    b: u32,
    c: u16,
    d: u16,
)
    requires { 16 ≤ length out.old }
    ensures { out.new ≡ over out.old (header_bytes (header kind flags size) ++ (big_endian 4 a ++ (big_endian 4 b ++ (big_endian 2 c ++ big_endian 2 d)))) }
{
    put_front_4(out, kind, flags, size, a);
    wire_put::put_u32(&mut out[8..], b);
    entries::put_pair(&mut out[12..], c, d);
}

// The header, and fields of 4, 2, 2 and 4 bytes behind it.
pub fn put_front_4224(
    out: &mut [u8],
    kind: u8,
    flags: u8,
    size: u16,
    a: u32,
    b: u16,
    c: u16,
    d: u32,
)
    requires { 16 ≤ length out.old }
    ensures { out.new ≡ over out.old (header_bytes (header kind flags size) ++ (big_endian 4 a ++ (big_endian 2 b ++ (big_endian 2 c ++ big_endian 4 d)))) }
{
    put_front_4(out, kind, flags, size, a);
    entries::put_pair(&mut out[8..], b, c);
    wire_put::put_u32(&mut out[12..], d);
}

// A list of numbers of 4 bytes.
fn put_words(out: &mut [u8], numbers: &[u32])
    requires { 4 * length numbers.now ≤ length out.old }
    ensures { out.new ≡ over out.old (words numbers.now) }
{
    for (i, &number) in numbers.iter().enumerate() {
        wire_put::put_u32(&mut out[4 * i..], number);
    }
}

// A list of such entries, and behind it a list of such numbers.
pub fn put_pairs_and_words(out: &mut [u8], firsts: &[u16], seconds: &[u16], numbers: &[u32])
    requires firsts_len { length firsts.now ≡ length seconds.now }
    requires numbers_in_bounds { 4 * length firsts.now + 4 * length numbers.now ≤ length out.old }
    ensures { out.new ≡ over out.old (pairs firsts.now seconds.now ++ words numbers.now) }
{
    let at = 4 * firsts.len();
    put_pairs(out, firsts, seconds);
    put_words(&mut out[at..], numbers);
}
