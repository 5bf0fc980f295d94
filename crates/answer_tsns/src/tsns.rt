// The TSN queue, and its calls.
use crate::rows::Row;
use answer_text::answer::Answer;
use answer_text::digest;
use answer_text::fault::{Fault, Malformed};
use answer_text::operands::{NUMBERS, Operands, lent};
use answer_text::rooms::Rooms;
use answer_text::shown::Unsigned;
use payload_queue::{LOG, PayloadQueue, Queued, TSNS, WORDS};
use refusal::Refusal;
use std::io;
use std::io::Write;

#[derive(Clone, Copy)]
pub struct Tsns {
    pub queue: PayloadQueue,
    pub table: [u32; WORDS],
}

impl Tsns {
    pub fn new() -> Tsns {
        Tsns {
            queue: PayloadQueue::new(),
            table: [0; WORDS],
        }
    }

    // Does the call of this number, and writes what it answers.
    pub fn answer<W: Write>(
        &mut self,
        number: u8,
        call: &mut Operands<'_>,
        rooms: &mut Rooms,
        out: &mut W,
    ) -> Result<(), Fault> {
        match number {
            22 => self.log(out)?,
            23 => self.gaps(call, rooms, out)?,
            29 => self.state(out)?,
            31 => self.whole(out)?,
            _ => {
                let answer = self.told(number, call)?;
                write!(out, "{answer}")?;
            }
        }
        Ok(())
    }

    // The calls that answer with no list.
    fn told(&mut self, number: u8, call: &mut Operands<'_>) -> Result<Answer, Malformed> {
        match number {
            16 => self.queue = PayloadQueue::new(),
            18 => return self.push(call),
            19 => return Ok(queued(self.queue.pop(&mut self.table, call.u32()?))),
            20 => return Ok(self.queue.pop_up_to(&mut self.table, call.u32()?).into()),
            30 => self.forge(call)?,
            57 => return self.forward(call),
            _ => return self.asked(number, call),
        }
        Ok(Answer::Done)
    }

    fn push(&mut self, call: &mut Operands<'_>) -> Result<Answer, Malformed> {
        let chunk = call.fields()?;
        let size = call.u16()?;
        let cumulative = call.u32()?;
        Ok(
            self.queue
                .push(&mut self.table, chunk, size, cumulative)
                .into(),
        )
    }

    // FORWARD TSN applied.
    fn forward(&mut self, call: &mut Operands<'_>) -> Result<Answer, Malformed> {
        let cumulative = call.u32()?;
        let point = call.u32()?;
        let (queue, table) = (&mut self.queue, &mut self.table);
        Ok(forward_tsn_drops::apply_to_tsns(queue, table, cumulative, point).into())
    }

    // The calls that change nothing.
    fn asked(&self, number: u8, call: &mut Operands<'_>) -> Result<Answer, Malformed> {
        let queue = self.queue;
        let table = &self.table;
        Ok(match number {
            17 => queue.can_push(table, call.u32()?, call.u32()?).into(),
            21 => queued(queue.get(table, call.u32()?)),
            24 => queue.get_last_tsn_received(table).into(),
            25 => queue.get_num_bytes(table).into(),
            26 => queue.len(table).into(),
            27 => queue.is_empty(table).into(),
            28 => queue.contains_stream(table, call.u16()?).into(),
            _ => return Err(Malformed),
        })
    }

    // The count of the log, or the refusal, and all places.
    fn log<W: Write>(&mut self, out: &mut W) -> io::Result<()> {
        match self.queue.pop_duplicates(&self.table) {
            Ok(log) => {
                let tsns = log.tsns;
                write!(out, "log {}{}", log.count, Unsigned(&tsns))
            }
            Err(refusal) => write!(out, "{refusal}{}", Unsigned(&[0u32; LOG])),
        }
    }

    // The number of blocks of the gap report, or the refusal, and as much of both lists as the call lends.
    fn gaps<W: Write>(
        &self,
        call: &mut Operands<'_>,
        rooms: &mut Rooms,
        out: &mut W,
    ) -> Result<(), Fault> {
        let cumulative = call.u32()?;
        let n = call.places(NUMBERS)?;
        let m = call.places(NUMBERS)?;
        let fill = call.u16()?;
        let starts = lent(&mut rooms.first, n, fill);
        let ends = lent(&mut rooms.second, m, fill);
        let told = self
            .queue
            .get_gap_ack_blocks(&self.table, cumulative, starts, ends);
        let answer = told.map_or_else(Answer::Refused, Answer::Blocks);
        write!(out, "{answer} starts{}", Unsigned(starts))?;
        write!(out, " ends{}", Unsigned(ends))?;
        Ok(())
    }

    // The counts, and the rows that they speak of.
    fn state<W: Write>(&self, out: &mut W) -> io::Result<()> {
        let count = self.queue.counts.count;
        let bytes = self.queue.counts.n_bytes;
        write!(out, "held {count} {bytes}")?;
        for i in 0..count.min(TSNS) {
            write!(out, " | {}", Row::of(&self.table, i))?;
        }
        Ok(())
    }

    fn whole<W: Write>(&self, out: &mut W) -> io::Result<()> {
        let counts = self.queue.counts;
        let log = digest::words(&counts.dup_tsn);
        let words = digest::words(&self.table);
        write!(
            out,
            "whole {} {} {} {log} {words}",
            counts.count, counts.n_bytes, counts.dups
        )
    }

    // One field of the queue, or one word of its table.
    fn forge(&mut self, call: &mut Operands<'_>) -> Result<(), Malformed> {
        let field = call.u8()?;
        let index = usize::from(call.u16()?);
        let value = call.index()?;
        let counts = &mut self.queue.counts;
        match field {
            0 => counts.count = value,
            1 => counts.n_bytes = value,
            2 => counts.dups = value,
            3 => counts.dup_tsn[index % LOG] = (value & 0xFFFF_FFFF) as u32,
            4 => self.table[index % WORDS] = (value & 0xFFFF_FFFF) as u32,
            _ => return Err(Malformed),
        }
        Ok(())
    }
}

fn queued(told: Result<Option<Queued>, Refusal>) -> Answer {
    match told {
        Ok(Some(held)) => Answer::Held(held.chunk, held.size),
        Ok(None) => Answer::Nothing,
        Err(refusal) => Answer::Refused(refusal),
    }
}
