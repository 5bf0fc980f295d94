// The calls of numbers that wrap, of headers, DATA, SACK and FORWARD TSN, of ERROR and ABORT, and of whole packets.
#![tactic(auto)]

mod causes;
mod numbers;
mod parts;
mod readers;
mod walk;
mod writers;

use answer_text::fault::Fault;
use answer_text::operands::Operands;
use answer_text::rooms::Rooms;
use std::io::Write;

// Does the call of this number, and writes what it answers.
pub fn answer<W: Write>(
    number: u8,
    call: &mut Operands<'_>,
    rooms: &mut Rooms,
    out: &mut W,
) -> Result<(), Fault> {
    match number {
        1..=4 | 67 | 68 => write!(out, "{}", numbers::told(number, call)?)?,
        7 | 10 | 11 | 54 | 62 => parts::answer(number, call, out)?,
        8 | 14 | 56 | 64 => writers::answer(number, call, rooms, out)?,
        63 => walk::walk(call.raw()?, out)?,
        65 | 66 => causes::answer(number, call, rooms, out)?,
        _ => write!(out, "{}", readers::told(number, call)?)?,
    }
    Ok(())
}
