// The first bytes of a buffer, copied to the front of another.
#![tactic(auto)]

ghost use Rattle.std.specs.Prelude.{◌≡◌, ◌≤◌, ltb, length, take};
ghost use Rattle.wire_model.specs.BigEndian.{over};

// What fits of them, and whether there is too little room for all.
pub fn copy(buffer: &[u8], size: usize, out: &mut [u8]) -> bool
    requires { size ≤ length buffer.now }
    ensures { (result ≡ ltb (length out.old) size) × (out.new ≡ over out.old (take (length out.old) (take size buffer.now))) }
{
    let room = out.len();
    if room < size {
        wire_put::put_bytes(out, &buffer[0..room]);
        return true;
    }
    wire_put::put_bytes(out, &buffer[0..size]);
    false
}
