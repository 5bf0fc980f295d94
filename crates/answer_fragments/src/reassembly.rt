// The reassembly queue, and its calls.
use crate::hand;
use crate::hand::Hand;
use crate::rows::Rows;
use answer_text::answer::Answer;
use answer_text::digest;
use answer_text::fault::{Fault, Malformed};
use answer_text::operands::Operands;
use answer_text::rooms::Rooms;
use answer_text::shown::Bytes;
use reassembly_queue::{ReassemblyQueue, WORDS};
use std::io;
use std::io::Write;

// The bytes of the pool, of which a part is lent.
const POOL: usize = 72000;

// The queue, what is lent to it, how many bytes of the pool are; and the message in hand.
#[derive(Clone, Copy)]
pub struct Fragments {
    queue: ReassemblyQueue,
    table: [u32; WORDS],
    pool: [u8; POOL],
    lent: usize,
    hand: Hand,
}

impl Fragments {
    pub fn new() -> Fragments {
        Fragments {
            queue: ReassemblyQueue::new(0, 65536),
            table: [0; WORDS],
            pool: [0; POOL],
            lent: reassembly_queue::BYTES,
            hand: Hand::new(),
        }
    }

    // Does the call of this number, and writes what it answers.
    pub fn answer<W: Write>(
        &mut self,
        number: u8,
        call: &mut Operands<'_>,
        rooms: &mut Rooms,
        out: &mut W,
    ) -> Result<(), Fault> {
        match number {
            33 => write!(out, "{}", self.push(call, rooms)?)?,
            35 => self.read(call, out)?,
            39 => self.state(out)?,
            41 => self.whole(out)?,
            48..=52 => self.hand.answer(number, call, rooms, out)?,
            _ => write!(out, "{}", self.told(number, call)?)?,
        }
        Ok(())
    }

    fn told(&mut self, number: u8, call: &mut Operands<'_>) -> Result<Answer, Malformed> {
        match number {
            32 => self.queue = ReassemblyQueue::new(call.u16()?, call.u32()?),
            36 | 37 | 42 | 58 => return self.skip(number, call),
            40 => self.forge(call)?,
            _ => return self.asked(number, call),
        }
        Ok(Answer::Done)
    }

    // The calls that change nothing.
    fn asked(&self, number: u8, call: &mut Operands<'_>) -> Result<Answer, Malformed> {
        let pool = hand::first(&self.pool, self.lent);
        Ok(match number {
            34 => self.queue.is_readable(&self.table, pool).into(),
            38 => self.queue.get_num_bytes(&self.table, pool).into(),
            43 => self.applicable(call.u16()?, call.u32()?, call.u32()?),
            _ => return Err(Malformed),
        })
    }

    fn applicable(&self, ssn: u16, tsn: u32, peer: u32) -> Answer {
        let table = &self.table;
        let pool = hand::first(&self.pool, self.lent);
        let queue = self.queue;
        match queue.applicable_forward_tsn_for_ordered_bounded(table, pool, ssn, tsn, peer) {
            Ok(Some(ssn)) => Answer::Number(u64::from(ssn)),
            Ok(None) => Answer::Nothing,
            Err(refusal) => Answer::Refused(refusal),
        }
    }

    fn push(&mut self, call: &mut Operands<'_>, rooms: &mut Rooms) -> Result<Answer, Malformed> {
        let chunk = call.fields()?;
        let user = call.user_data(&mut rooms.data)?;
        let pool = hand::first_mut(&mut self.pool, self.lent);
        Ok(self.queue.push(&mut self.table, pool, chunk, user).into())
    }

    // The skips, and FORWARD TSN applied.
    fn skip(&mut self, number: u8, call: &mut Operands<'_>) -> Result<Answer, Malformed> {
        let queue = &mut self.queue;
        let table = &mut self.table;
        let pool = hand::first_mut(&mut self.pool, self.lent);
        let skipped = match number {
            36 => queue.forward_tsn_for_ordered(table, pool, call.u16()?),
            37 => queue.forward_tsn_for_unordered(table, pool, call.u32()?),
            42 => queue.forward_tsn_for_ordered_bounded(table, pool, call.u16()?, call.u32()?),
            _ => {
                let part = call.raw()?;
                let cumulative = call.u32()?;
                let point = call.u32()?;
                forward_tsn::apply_to_stream(queue, table, pool, cumulative, point, part)
            }
        };
        Ok(skipped.into())
    }

    // A message that is taken is in hand from then on, in the buffer that was lent for it, all bytes of which stand behind the answer.
    fn read<W: Write>(&mut self, call: &mut Operands<'_>, out: &mut W) -> Result<(), Fault> {
        let room = call.size()?;
        let fill = call.u8()?;
        let answer = self.take(room, fill);
        write!(out, "{answer} {}", Bytes(self.hand.lent()))?;
        Ok(())
    }

    fn take(&mut self, room: usize, fill: u8) -> Answer {
        let pool = hand::first_mut(&mut self.pool, self.lent);
        let buffer = self.hand.empty(room, fill);
        match self.queue.read(&mut self.table, pool, buffer) {
            Ok(Some(message)) => {
                self.hand.take(message);
                Answer::Message(message.ssn, message.ppi, message.size)
            }
            Ok(None) => Answer::Nothing,
            Err(refusal) => Answer::Refused(refusal),
        }
    }

    fn state<W: Write>(&self, out: &mut W) -> io::Result<()> {
        let counts = self.queue.counts;
        let maximum = counts.max_message_size;
        write!(
            out,
            "queue {} {} {maximum} {}",
            counts.si, counts.next_ssn, counts.n_bytes
        )?;
        let rows = Rows {
            queue: self.queue,
            table: &self.table,
            pool: &self.pool,
        };
        write!(out, "{rows}")
    }

    fn whole<W: Write>(&self, out: &mut W) -> io::Result<()> {
        let counts = self.queue.counts;
        let words = digest::words(&self.table);
        let bytes = digest::bytes(&self.pool);
        write!(
            out,
            "whole {} {} {}",
            counts.finished, counts.unordered, counts.ordered
        )?;
        write!(out, " {words} {bytes}")
    }

    // One field of the queue, one word of its table, one byte of the pool, or how much is lent of it.
    fn forge(&mut self, call: &mut Operands<'_>) -> Result<(), Malformed> {
        let field = call.u8()?;
        let index = usize::from(call.u16()?);
        let value = call.index()?;
        let counts = &mut self.queue.counts;
        match field {
            0 => counts.si = (value & 0xFFFF) as u16,
            1 => counts.next_ssn = (value & 0xFFFF) as u16,
            2 => counts.max_message_size = (value & 0xFFFF_FFFF) as u32,
            3 => counts.finished = value,
            4 => counts.unordered = value,
            5 => counts.ordered = value,
            6 => counts.n_bytes = value,
            7 => self.table[index % WORDS] = (value & 0xFFFF_FFFF) as u32,
            8 => self.pool[index % POOL] = (value & 0xFF) as u8,
            9 => self.lent = value % (POOL + 1),
            _ => return Err(Malformed),
        }
        Ok(())
    }
}
