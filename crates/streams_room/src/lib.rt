// Whether a push to one of eight streams has room: what the streams draw on the common part.
#![tactic(auto)]

ghost use Rattle.std.specs.Prelude.{◌≡◌, ◌&&◌, cond, map, ◌+◌, ◌-◌, ◌*◌, ◌^◌, ◌≤◌, ◌<◌, leb, eqb};
ghost use Rattle.reassembly_state.specs.Limits.{frags_most};
ghost use Rattle.reassembly_state.specs.State.{count};
ghost use Rattle.streams_model.specs.Limits.{streams_most, own_frags, own_bytes, common_frags, common_bytes};
ghost use Rattle.streams_model.specs.Shape.{queues_of};
ghost use Rattle.streams_model.specs.Room.{draws, raised};
ghost use Rattle.streams_model.specs.State.{rows_held, bytes_said, bytes_of};

use reassembly_state::BYTES;
use streams_model::{COMMON_BYTES, COMMON_FRAGMENTS, OWN_BYTES, OWN_FRAGMENTS, STREAMS, Streams};

// What a stream that holds n draws on the common part, where so many are its own.
fn draw(n: usize, own: usize) -> usize
    ensures { result ≡ n - own }
{
    if n < own {
        return 0;
    }
    n - own
}

// What stream i holds with so much more of one stream.
fn raised(n: usize, more: usize, i: usize, stream: usize) -> usize
    requires { n + more < 2 ^ 64 }
    ensures { result ≡ cond (eqb i stream) (n + more) n }
{
    if i == stream {
        return n + more;
    }
    n
}

// Whether there is room for one more fragment of a stream, of so many bytes: the streams' draws with it are within the common part.
pub fn has_room(streams: Streams, stream: usize, more: usize) -> bool
    requires stream_lt_streams_most { stream < streams_most }
    requires streams_bound { rows_held (queues_of streams) ≤ frags_most }
    requires streams_bound_2 { bytes_said (queues_of streams) ≤ 16777216 * frags_most }
    ensures { result ≡ (leb (draws own_frags (raised stream 1 (map count (queues_of streams)))) common_frags && leb (draws own_bytes (raised stream more (map bytes_of (queues_of streams)))) common_bytes) }
{
    if BYTES < more {
        return false;
    }
    let mut frags: usize = 0;
    let mut bytes: usize = 0;
    for i in 0..STREAMS {
        let queue = streams.at(i);
        let n = raised(
            queue.finished + (queue.unordered + queue.ordered),
            1,
            i,
            stream,
        );
        let size = raised(queue.n_bytes, more, i, stream);
        frags += draw(n, OWN_FRAGMENTS);
        bytes += draw(size, OWN_BYTES);
    }
    if COMMON_FRAGMENTS < frags {
        return false;
    }
    bytes <= COMMON_BYTES
}
