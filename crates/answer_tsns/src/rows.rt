// A row of either queue's table.
ghost use Rattle.std.specs.Prelude.{◌<◌};

use answer_text::operands;
use answer_text::shown::{Fields, Marks};
use payload_queue::{TSNS, WORDS};
use std::fmt;

// Its chunk, the size of its data, and what is marked of it in flight.
#[derive(Clone, Copy)]
pub struct Row {
    chunk: Fields,
    size: u32,
    pub marks: Marks,
}

impl Row {
    pub fn of(table: &[u32; WORDS], i: usize) -> Row
        requires { i < 1024 }
    {
        let head = table[i];
        let tsn = table[TSNS + i];
        let id = table[2 * TSNS + i];
        let identifier = table[3 * TSNS + i];
        Row {
            chunk: Fields(operands::record(head, tsn, id, identifier)),
            size: head & 0xFFFF,
            marks: Marks {
                acked: head & 0x1_0000 != 0,
                abandoned: head & 0x2_0000 != 0,
                retransmit: head & 0x4_0000 != 0,
            },
        }
    }
}

impl fmt::Display for Row {
    fn fmt<W: fmt::Write>(&self, f: &mut fmt::Formatter<W>) -> fmt::Result {
        write!(f, "{} {}", self.chunk, self.size)
    }
}
