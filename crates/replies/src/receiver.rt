// The three queues and what is lent beside them, and who of them and of the codecs does a call.
use answer_fragments::reassembly::Fragments;
use answer_text::fault::Fault;
use answer_text::operands::Operands;
use answer_text::rooms::Rooms;
use answer_tsns::flight::Flight;
use answer_tsns::tsns::Tsns;
use std::io;
use std::io::Write;

#[derive(Clone, Copy)]
pub struct Receiver {
    tsns: Tsns,
    flight: Flight,
    fragments: Fragments,
    rooms: Rooms,
}

impl Receiver {
    pub fn new() -> Receiver {
        Receiver {
            tsns: Tsns::new(),
            flight: Flight::new(),
            fragments: Fragments::new(),
            rooms: Rooms::new(),
        }
    }

    // Does the call that the stream goes on with, and writes its line.
    pub fn answer<W: Write>(&mut self, call: &mut Operands<'_>, out: &mut W) -> Result<(), Fault> {
        let number = call.u8()?;
        let rooms = &mut self.rooms;
        match number {
            16..=31 | 57 => self.tsns.answer(number, call, rooms, out)?,
            32..=43 | 48..=52 | 58 => self.fragments.answer(number, call, rooms, out)?,
            69..=82 => self.flight.answer(number, call, out)?,
            _ => answer_codecs::answer(number, call, rooms, out)?,
        }
        writeln!(out)?;
        Ok(())
    }
}
