// Reads calls from standard input, does each on the proved libraries, and writes one line for it: docs/CALLS.md.
#![tactic(auto)]

mod receiver;

use answer_text::fault::Fault;
use answer_text::operands::Operands;
use input::Window;
use output::Output;
use receiver::Receiver;
use std::io;
use std::io::{Read, Write};

// No line is longer: the longest holds four lists of 10,000 numbers of 16 bits.
const LINE: usize = 250000;

fn main(rt: HostRuntime) -> io::Result<()> {
    let mut receiver = Receiver::new();
    stream(&mut receiver, &mut rt.stdin(), &mut rt.stdout())
}

// One call after the other, up to the end of the stream, or of what can be understood of it.
fn stream<R: Read, W: Write>(
    receiver: &mut Receiver,
    reader: &mut R,
    writer: &mut W,
) -> io::Result<()> {
    let mut window = Window::new();
    let mut out = Output::new();
    for number in 1..u64::MAX {
        window.fill(reader)?;
        let rest = window.rest();
        if rest.is_empty() {
            break;
        }
        let mut call = Operands::of(rest);
        let answered = receiver.answer(&mut call, &mut out);
        let used = rest.len().saturating_sub(call.left());
        match answered {
            Ok(()) => window.consume(used),
            Err(Fault::Malformed) => {
                writeln!(out, "malformed call {number}")?;
                break;
            }
            Err(Fault::Io(error)) => return Err(error),
        }
        out.make_room(LINE, writer)?;
    }
    out.write_out(writer)
}
