// A window over what a reader gives, in which the next call or record stands whole: where less than the longest one is left, what is left goes to the front and
// more is read behind it.
#![tactic(auto)]

ghost use Rattle.std.specs.Prelude.{◌≡◌, ◌≤◌, length, drop, IfOk};
ghost use Rattle.std.specs.Io.{StartsWith};
ghost use Rattle.wire_model.specs.BigEndian.{over};
ghost use Rattle.moves_model.specs.Lists.{slice};

use std::io;
use std::io::{ErrorKind, Read};

const SIZE: usize = 262144;

// No call is longer, and no record of captured chunks.
const LONGEST: usize = 135000;

#[derive(Drop)]
pub struct Window {
    bytes: [u8; SIZE],
    // What is not used yet.
    from: usize,
    to: usize,
    // Whether the reader has come to its end.
    ended: bool,
    ghost inside: { (from ≤ to) × (to ≤ 262144) },
}

impl Window {
    pub fn new() -> Window {
        Window {
            bytes: [0; SIZE],
            from: 0,
            to: 0,
            ended: false,
        }
    }

    // Reads on, where the next call or record may not stand whole. What was not used stands in front of what was read, also where a read failed.
    pub fn fill<R: Read>(&mut self, reader: &mut R) -> io::Result<()>
        ensures { StartsWith (slice self.new.from self.new.to self.new.bytes) (slice self.old.from self.old.to self.old.bytes) }
    {
        if !self.ended && self.to - self.from < LONGEST {
            self.shift();
            let left = self.to;
            let more = read_full(reader, &mut self.bytes[left..])?;
            self.to = left + more;
            self.ended = left + more < SIZE;
        }
        Ok(())
    }

    // What is not used yet goes to the front.
    fn shift(&mut self)
        ensures bytes { self.new.bytes ≡ over self.old.bytes (slice self.old.from self.old.to self.old.bytes) }
        ensures from { self.new.from ≡ 0 }
        ensures to { self.new.to ≡ length (slice self.old.from self.old.to self.old.bytes) }
        ensures ended { self.new.ended ≡ self.old.ended }
    {
        self.bytes.copy_within(self.from..self.to, 0);
        self.to -= self.from;
        self.from = 0;
    }

    // A whole call or record, with what stands behind it; or all that is left.
    pub fn rest(&self) -> &[u8]
        ensures { result.now ≡ slice self.now.from self.now.to self.now.bytes }
    {
        &self.bytes[self.from..self.to]
    }

    // So many bytes are used.
    pub fn consume(&mut self, n: usize)
        ensures { slice self.new.from self.new.to self.new.bytes ≡ drop n (slice self.old.from self.old.to self.old.bytes) }
    {
        self.from = self.from.saturating_add(n).min(self.to);
    }
}

// Reads until these bytes are full or the input ends; how many were read.
fn read_full<R: Read>(reader: &mut R, bytes: &mut [u8]) -> io::Result<usize>
    ensures { IfOk result (λ n. n ≤ length bytes.new) }
{
    let mut done: usize = 0;
    for _ in 0..u64::MAX {
        if done == bytes.len() {
            break;
        }
        match reader.read(&mut bytes[done..]) {
            Ok(0) => break,
            Ok(n) => done += n,
            Err(e) => {
                if e.kind() != ErrorKind::Interrupted {
                    return Err(e);
                }
            }
        }
    }
    Ok(done)
}
