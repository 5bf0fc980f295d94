// Lists of 4-byte entries, each of two numbers of 2 bytes, put at the front of what is lent.
#![tactic(auto)]

ghost use Rattle.std.specs.Prelude.{◌≡◌, ◌++◌, ◌*◌, ◌≤◌, length};
ghost use Rattle.wire_model.specs.BigEndian.{big_endian, over};
ghost use Rattle.entries.specs.Pairs.{pairs};

// Two numbers of 2 bytes.
pub fn put_pair(out: &mut [u8], first: u16, second: u16)
    requires { 4 ≤ length out.old }
    ensures { out.new ≡ over out.old (big_endian 2 first ++ big_endian 2 second) }
{
    wire_put::put_u16(out, first);
    wire_put::put_u16(&mut out[2..], second);
}

// A list of entries, each of a number of the one list and the number of the other that stands at its index.
pub fn put_pairs(out: &mut [u8], firsts: &[u16], seconds: &[u16])
    requires firsts_len { length firsts.now ≡ length seconds.now }
    requires firsts_in_bounds { 4 * length firsts.now ≤ length out.old }
    ensures { out.new ≡ over out.old (pairs firsts.now seconds.now) }
{
    for i in 0..firsts.len() {
        put_pair(&mut out[4 * i..], firsts[i], seconds[i]);
    }
}
