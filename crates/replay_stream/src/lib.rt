// A replay of the captured chunks that a reader gives, its lines to a writer. What is decided stands in `replay_step`: here bytes are only brought to
// it and taken from it.
#![tactic(auto)]

use input::Window;
use output::Output;
use payload_queue::WORDS;
use replay_step::LINE;
use std::io;
use std::io::{Read, Write};

// At most so many records, one after the other, up to the last one; then the totals.
pub fn run<R: Read, W: Write>(reader: &mut R, writer: &mut W, most: u64) -> io::Result<()> {
    let mut window = Window::new();
    let mut out = Output::new();
    let mut line = [0u8; LINE];
    window.fill(reader)?;
    if !replay_file::is_known(window.rest()) {
        let n = replay_step::bad_version(&mut line);
        put(&mut out, writer, &line, n)?;
        return out.write_out(writer);
    }
    window.consume(1);
    let mut table = [0u32; WORDS];
    let mut replay = replay_step::new();
    for _ in 0..most {
        window.fill(reader)?;
        let turn = replay_step::step(&mut replay, window.rest(), &mut table, &mut line);
        put(&mut out, writer, &line, turn.written)?;
        if !turn.more {
            break;
        }
        window.consume(turn.taken);
    }
    let n = replay_step::total(replay, &mut line);
    put(&mut out, writer, &line, n)?;
    out.write_out(writer)
}

// The first bytes of the line, behind those that wait; these are written out where the line may find no room.
fn put<W: Write>(out: &mut Output, writer: &mut W, line: &[u8; LINE], n: usize) -> io::Result<()> {
    out.make_room(LINE, writer)?;
    out.write_all(&line[..n.min(LINE)])
}
