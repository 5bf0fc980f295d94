// What a push asks of a sound queue before it stores anything.
ghost use Rattle.std.specs.Prelude.{◌≡◌, ◌&&◌, ◌+◌, ◌≤◌, ltb, leb};
ghost use Rattle.reassembly_state.specs.Limits.{frags_most, bytes_most};
ghost use Rattle.reassembly_state.specs.State.{count};

use reassembly_state::{BYTES, Counts, FRAGMENTS};

// Whether so many bytes and so many more are above the maximum. The sum itself might not fit.
pub fn above(max: u32, held: usize, more: usize) -> bool
    ensures { result ≡ ltb max (held + more) }
{
    let most = max as usize;
    if most < held {
        return true;
    }
    most - held < more
}

// Whether there is room for one more fragment, of so many bytes.
pub fn has_room(queue: Counts, more: usize) -> bool
    requires { count queue ≤ frags_most }
    ensures { result ≡ (leb (count queue + 1) frags_most && leb (queue.n_bytes + more) bytes_most) }
{
    if FRAGMENTS <= queue.finished + (queue.unordered + queue.ordered) {
        return false;
    }
    if BYTES < queue.n_bytes {
        return false;
    }
    more <= BYTES - queue.n_bytes
}
