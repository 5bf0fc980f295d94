// Lines on their way to a writer, gathered without heap, so that a line costs no write of its own. They are written out when that is asked for, and never when they are
// let go: where the program ends by an error, what waited is not written.
#![tactic(auto)]

ghost use Rattle.std.specs.Prelude.{◌≡◌, ◌+◌, ◌-◌, ◌<◌, ◌≤◌, min, [], length, Some, Ok, IsOk, OnOk, OnErr};
ghost use Rattle.std.specs.Io.{WritesAtMost};
ghost use Rattle.std.specs.Io.KnownBytes.{Appends, Keeps, WriteAppends};

use arrayvec::ArrayVec;
use std::io;
use std::io::{ErrorKind, Write};

const SIZE: usize = 262144;

#[derive(Drop)]
pub struct Output {
    waiting: ArrayVec<u8, SIZE>,
}

impl Output {
    pub fn new() -> Output
        ensures { result.waiting.items ≡ [] }
    {
        Output {
            waiting: ArrayVec::new(),
        }
    }

    // Writes out what waits, where fewer than so many bytes more find room.
    pub fn make_room<W: Write>(&mut self, bytes: usize, writer: &mut W) -> io::Result<()>
        ensures kept { length self.old.waiting.items + bytes ≤ 262144 → IsOk result × (self.new ≡ self.old) × (writer.new ≡ writer.old) }
        ensures written { 262144 < length self.old.waiting.items + bytes → OnOk result (Appends (W.contents writer.old) (W.contents writer.new) self.old.waiting.items × (self.new.waiting.items ≡ [])) }
    {
        if self.waiting.remaining_capacity() < bytes {
            self.write_out(writer)?;
        }
        Ok(())
    }

    pub fn write_out<W: Write>(&mut self, writer: &mut W) -> io::Result<()>
        ensures written { OnOk result (Appends (W.contents writer.old) (W.contents writer.new) self.old.waiting.items) }
        ensures none_waits { OnOk result (self.new.waiting.items ≡ []) }
    {
        writer.write_all(self.waiting.as_slice())?;
        self.waiting.clear();
        Ok(())
    }
}

// What is written waits.
impl Write for Output {
    ghost contents = { λ o. Some o.waiting.items };

    fn write(&mut self, buf: &[u8]) -> io::Result<usize>
        ensures bound { WritesAtMost result buf.now }
        ensures bytes { WriteAppends (Some self.old.waiting.items) (Some self.new.waiting.items) result buf.now }
        ensures count { result ≡ Ok (min (262144 - length self.old.waiting.items) (length buf.now)) }
    {
        self.waiting.write(buf)
    }

    fn flush(&mut self) -> io::Result<()>
        ensures bytes { Keeps (Some self.old.waiting.items) (Some self.new.waiting.items) }
        ensures ok { IsOk result }
    {
        Ok(())
    }

    // All at once, or nothing where they do not fit.
    fn write_all(&mut self, buf: &[u8]) -> io::Result<()>
        ensures bytes { OnOk result (Appends (Some self.old.waiting.items) (Some self.new.waiting.items) buf.now) }
        ensures fits { length self.old.waiting.items + length buf.now ≤ 262144 → IsOk result }
        ensures err { OnErr result (self.new ≡ self.old) }
    {
        match self.waiting.try_extend_from_slice(buf) {
            Ok(()) => Ok(()),
            Err(_) => Err(io::Error::from(ErrorKind::WriteZero)),
        }
    }
}
