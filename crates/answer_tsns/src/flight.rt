// The sender's in-flight queue, and its calls.
use crate::rows::Row;
use answer_text::answer::Answer;
use answer_text::digest;
use answer_text::fault::{Fault, Malformed};
use answer_text::operands::Operands;
use answer_text::shown::Marks;
use inflight_queue::{InFlightQueue, Sent, TSNS, WORDS};
use refusal::Refusal;
use std::io;
use std::io::Write;

// The numbers of the messages stand beside the table.
#[derive(Clone, Copy)]
pub struct Flight {
    queue: InFlightQueue,
    table: [u32; WORDS],
    messages: [u64; TSNS],
}

impl Flight {
    pub fn new() -> Flight {
        Flight {
            queue: InFlightQueue::new(),
            table: [0; WORDS],
            messages: [0; TSNS],
        }
    }

    // Does the call of this number, and writes what it answers.
    pub fn answer<W: Write>(
        &mut self,
        number: u8,
        call: &mut Operands<'_>,
        out: &mut W,
    ) -> Result<(), Fault> {
        match number {
            80 => self.state(out)?,
            82 => self.whole(out)?,
            _ => {
                let answer = self.told(number, call)?;
                write!(out, "{answer}")?;
            }
        }
        Ok(())
    }

    fn told(&mut self, number: u8, call: &mut Operands<'_>) -> Result<Answer, Malformed> {
        let queue = &mut self.queue;
        let table = &mut self.table;
        let messages = &mut self.messages;
        match number {
            69 => *queue = InFlightQueue::new(),
            70 => return self.push(call),
            71 => return Ok(queue.mark_as_acked(table, call.u32()?).into()),
            72 => return Ok(queue.mark_all_to_retransmit(table).into()),
            73 => return Ok(queue.abandon_message(table, messages, call.u64()?).into()),
            74 => return Ok(sent(queue.pop(table, messages, call.u32()?))),
            75 => return Ok(queue.pop_up_to(table, messages, call.u32()?).into()),
            81 => self.forge(call)?,
            _ => return self.asked(number, call),
        }
        Ok(Answer::Done)
    }

    fn push(&mut self, call: &mut Operands<'_>) -> Result<Answer, Malformed> {
        let chunk = call.fields()?;
        let size = call.u16()?;
        let message = call.u64()?;
        let queue = &mut self.queue;
        let pushed = queue.push_no_check(&mut self.table, &mut self.messages, chunk, size, message);
        Ok(pushed.into())
    }

    // The calls that change nothing.
    fn asked(&self, number: u8, call: &mut Operands<'_>) -> Result<Answer, Malformed> {
        Ok(match number {
            76 => sent(self.queue.get(&self.table, &self.messages, call.u32()?)),
            77 => self.queue.get_num_bytes(&self.table).into(),
            78 => self.queue.len(&self.table).into(),
            79 => self.queue.is_empty(&self.table).into(),
            _ => return Err(Malformed),
        })
    }

    // The counts, and the rows that they speak of, each with its marks and the number of its message.
    fn state<W: Write>(&self, out: &mut W) -> io::Result<()> {
        let count = self.queue.counts.count;
        let bytes = self.queue.counts.n_bytes;
        write!(out, "held {count} {bytes}")?;
        for i in 0..count.min(TSNS) {
            let row = Row::of(&self.table, i);
            write!(out, " | {row} {} {}", row.marks, self.messages[i])?;
        }
        Ok(())
    }

    fn whole<W: Write>(&self, out: &mut W) -> io::Result<()> {
        let counts = self.queue.counts;
        let words = digest::words(&self.table);
        let numbers = digest::longs(&self.messages);
        write!(
            out,
            "whole {} {} {words} {numbers}",
            counts.count, counts.n_bytes
        )
    }

    // A count of the queue, one word of its table, or the number of one message.
    fn forge(&mut self, call: &mut Operands<'_>) -> Result<(), Malformed> {
        let field = call.u8()?;
        let index = usize::from(call.u16()?);
        let value = call.u64()?;
        match field {
            0 => self.queue.counts.count = value as usize,
            1 => self.queue.counts.n_bytes = value as usize,
            2 => self.table[index % WORDS] = (value & 0xFFFF_FFFF) as u32,
            3 => self.messages[index % TSNS] = value,
            _ => return Err(Malformed),
        }
        Ok(())
    }
}

fn sent(told: Result<Option<Sent>, Refusal>) -> Answer {
    match told {
        Ok(Some(sent)) => {
            let marks = Marks {
                acked: sent.acked,
                abandoned: sent.abandoned,
                retransmit: sent.retransmit,
            };
            Answer::Sent(sent.queued.chunk, sent.queued.size, marks, sent.message_id)
        }
        Ok(None) => Answer::Nothing,
        Err(refusal) => Answer::Refused(refusal),
    }
}
