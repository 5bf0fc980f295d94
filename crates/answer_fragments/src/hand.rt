// The message in hand, and its calls.
use answer_text::answer::Answer;
use answer_text::fault::{Fault, Malformed};
use answer_text::operands::{BYTES, Operands};
use answer_text::rooms::Rooms;
use answer_text::shown::Bytes;
use chunks::Chunks;
use std::io::Write;

// The message, if there is one, its buffer, and how many bytes of that are lent.
#[derive(Clone, Copy)]
pub struct Hand {
    message: Option<Chunks>,
    buffer: [u8; BYTES],
    room: usize,
}

impl Hand {
    pub fn new() -> Hand {
        Hand {
            message: None,
            buffer: [0; BYTES],
            room: 0,
        }
    }

    // Does the call of this number, and writes what it answers.
    pub fn answer<W: Write>(
        &mut self,
        number: u8,
        call: &mut Operands<'_>,
        rooms: &mut Rooms,
        out: &mut W,
    ) -> Result<(), Fault> {
        match number {
            48 => write!(out, "{}", self.len())?,
            49 => write!(out, "{}", self.is_empty())?,
            50 => self.read(call, rooms, out)?,
            51 => self.next(call, out)?,
            52 => write!(out, "{}", self.forge(call)?)?,
            _ => return Err(Fault::Malformed),
        }
        Ok(())
    }

    // A buffer of so many bytes, each of them this one, with no message in it; all behind it are 0.
    pub fn empty(&mut self, room: usize, fill: u8) -> &mut [u8] {
        self.message = None;
        self.room = room;
        self.buffer = [0; BYTES];
        let lent = first_mut(&mut self.buffer, room);
        lent.fill(fill);
        lent
    }

    // A message that was taken into the buffer.
    pub fn take(&mut self, message: Chunks) {
        self.message = Some(message);
    }

    // The buffer, as much of it as is lent.
    pub fn lent(&self) -> &[u8] {
        first(&self.buffer, self.room)
    }

    fn len(&self) -> Answer {
        match self.message {
            Some(message) => message.len(self.lent()).into(),
            None => Answer::NothingInHand,
        }
    }

    fn is_empty(&self) -> Answer {
        match self.message {
            Some(message) => message.is_empty(self.lent()).into(),
            None => Answer::NothingInHand,
        }
    }

    // The whole read, into as much room as the call says, all of which stands behind the answer.
    fn read<W: Write>(
        &self,
        call: &mut Operands<'_>,
        rooms: &mut Rooms,
        out: &mut W,
    ) -> Result<(), Fault> {
        let room = call.room(&mut rooms.buffer)?;
        match self.message {
            Some(message) => {
                let answer = Answer::from(message.read(self.lent(), room));
                write!(out, "{answer} {}", Bytes(room))?;
            }
            None => write!(out, "{}", Answer::NothingInHand)?,
        }
        Ok(())
    }

    // The next piece; its bytes stand behind its place.
    fn next<W: Write>(&mut self, call: &mut Operands<'_>, out: &mut W) -> Result<(), Fault> {
        let most = call.index()?;
        let held = first(&self.buffer, self.room);
        let Some(message) = &mut self.message else {
            write!(out, "{}", Answer::NothingInHand)?;
            return Ok(());
        };
        match message.next(held, most) {
            Ok(Some(part)) => {
                let to = part.start.saturating_add(part.size);
                let bytes = held.get(part.start..to).unwrap_or(&[]);
                write!(out, "piece {} {} {}", part.start, part.size, Bytes(bytes))?;
            }
            Ok(None) => write!(out, "{}", Answer::Nothing)?,
            Err(refusal) => write!(out, "{refusal}")?,
        }
        Ok(())
    }

    // One field of the message, or how many bytes of its buffer are lent.
    fn forge(&mut self, call: &mut Operands<'_>) -> Result<Answer, Malformed> {
        let field = call.u8()?;
        let value = call.index()?;
        if 3 < field {
            return Err(Malformed);
        }
        let Some(message) = &mut self.message else {
            return Ok(Answer::NothingInHand);
        };
        match field {
            0 => message.size = value,
            1 => message.position = value,
            2 => message.given = value != 0,
            _ => self.room = value % (BYTES + 1),
        }
        Ok(Answer::Done)
    }
}

// The first n; all where there are fewer.
pub fn first(s: &[u8], n: usize) -> &[u8] {
    &s[..n.min(s.len())]
}

pub fn first_mut(s: &mut [u8], n: usize) -> &mut [u8] {
    let n = n.min(s.len());
    &mut s[..n]
}
