// The rows of the reassembly queue's table as they stand.
use answer_text::operands;
use answer_text::shown::{Bytes, Fields};
use reassembly_queue::{FRAGMENTS, ReassemblyQueue, WORDS};
use std::fmt;

// What a row is of.
#[derive(Clone, Copy)]
enum Kind {
    Finished,
    Loose,
    Ordered,
}

impl fmt::Display for Kind {
    fn fmt<W: fmt::Write>(&self, f: &mut fmt::Formatter<W>) -> fmt::Result {
        f.write_str(match self {
            Kind::Finished => "f",
            Kind::Loose => "u",
            Kind::Ordered => "o",
        })
    }
}

impl Kind {
    // By the counts, summed without wrapping; none where they end.
    fn of(queue: ReassemblyQueue, i: usize) -> Option<Kind> {
        let counts = queue.counts;
        let unordered = counts.finished.saturating_add(counts.unordered);
        let ordered = unordered.saturating_add(counts.ordered);
        if i < counts.finished {
            Some(Kind::Finished)
        } else if i < unordered {
            Some(Kind::Loose)
        } else if i < ordered {
            Some(Kind::Ordered)
        } else {
            None
        }
    }
}

// All of them, each behind a bar; the data of each stands behind that of the one before it, and ends with the pool at the latest.
#[derive(Clone, Copy)]
pub struct Rows<'a> {
    pub queue: ReassemblyQueue,
    pub table: &'a [u32; WORDS],
    pub pool: &'a [u8],
}

impl<'a> fmt::Display for Rows<'a> {
    fn fmt<W: fmt::Write>(&self, f: &mut fmt::Formatter<W>) -> fmt::Result {
        let mut rest = self.pool;
        for i in 0..FRAGMENTS {
            let Some(kind) = Kind::of(self.queue, i) else {
                break;
            };
            let head = self.table[i];
            let tsn = self.table[FRAGMENTS + i];
            let id = self.table[2 * FRAGMENTS + i];
            let identifier = self.table[3 * FRAGMENTS + i];
            let chunk = Fields(operands::record(head, tsn, id, identifier));
            let length = (head & 0xFF_FFFF) as usize;
            let (data, behind) = rest.split_at(length.min(rest.len()));
            write!(f, " | {kind} {chunk} {}", Bytes(data))?;
            rest = behind;
        }
        Ok(())
    }
}
