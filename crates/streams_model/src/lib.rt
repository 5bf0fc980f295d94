// Eight streams that share one table and one pool (document 02, M-112): their counts, one behind the other, and what every call's answer is.
#![tactic(auto)]

ghost use Rattle.std.specs.Prelude.{◌≡◌, ◌<◌, get_or, set};
ghost use Rattle.streams_model.specs.Limits.{streams_most};
ghost use Rattle.streams_model.specs.Shape.{queues_of, no_counts, fresh_streams};

use reassembly_fresh::fresh;
use reassembly_state::Counts;

// The sizes, stated once. `specs/Limits.antt` states them once for the proofs.
pub const STREAMS: usize = 8;

// What each stream is sure of, and what is common.
pub const OWN_FRAGMENTS: usize = 16;

pub const OWN_BYTES: usize = 4096;

pub const COMMON_FRAGMENTS: usize = 384;

pub const COMMON_BYTES: usize = 32768;

// The counts of the eight; the records stand in the lent table and their bytes in the lent pool, stream after stream, each stream's as its queue
// alone would hold them.
#[derive(Clone, Copy)]
pub struct Streams {
    pub s0: Counts,
    pub s1: Counts,
    pub s2: Counts,
    pub s3: Counts,
    pub s4: Counts,
    pub s5: Counts,
    pub s6: Counts,
    pub s7: Counts,
}

impl Streams {
    // Eight fresh queues, of the streams 0 to 7; the table and the pool lent to them may hold anything.
    pub fn new(max_message_size: u32) -> Self
        ensures { result ≡ fresh_streams max_message_size }
    {
        Streams {
            s0: fresh(0, max_message_size),
            s1: fresh(1, max_message_size),
            s2: fresh(2, max_message_size),
            s3: fresh(3, max_message_size),
            s4: fresh(4, max_message_size),
            s5: fresh(5, max_message_size),
            s6: fresh(6, max_message_size),
            s7: fresh(7, max_message_size),
        }
    }

    // The counts of a stream.
    pub fn at(self, stream: usize) -> Counts
        requires { stream < streams_most }
        ensures { result ≡ get_or (queues_of self) stream no_counts }
    {
        match stream {
            0 => self.s0,
            1 => self.s1,
            2 => self.s2,
            3 => self.s3,
            4 => self.s4,
            5 => self.s5,
            6 => self.s6,
            _ => self.s7,
        }
    }

    // Other counts of a stream.
    pub fn put_at(&mut self, stream: usize, counts: Counts)
        requires { stream < streams_most }
        ensures { queues_of self.new ≡ set (queues_of self.old) stream counts }
    {
        match stream {
            0 => self.s0 = counts,
            1 => self.s1 = counts,
            2 => self.s2 = counts,
            3 => self.s3 = counts,
            4 => self.s4 = counts,
            5 => self.s5 = counts,
            6 => self.s6 = counts,
            _ => self.s7 = counts,
        }
    }
}
