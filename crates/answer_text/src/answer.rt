// What a call answers, in the words of docs/CALLS.md; lists and bytes are written behind it.
use crate::shown::{Fields, Marks};
use data_fields::ChunkPayloadData;
use refusal::Refusal;
use serial_model::Order;
use std::fmt;

#[derive(Clone, Copy)]
pub enum Answer {
    Is(bool),
    Done,
    Nothing,
    NothingInHand,
    Refused(Refusal),
    Number(u64),
    Distance(i64),
    Order(Order),
    // Whether the one number is lt, lte, gt, gte the other.
    Ordered([bool; 4]),
    Tsn(u32),
    Wrote(usize),
    Blocks(usize),
    Causes(usize),
    Header(u8, u8, u16),
    Data(ChunkPayloadData),
    // The cumulative TSN, the window, and how many blocks and duplicates.
    Sack(u32, u32, u16, u16),
    Block(u16, u16),
    // The new cumulative TSN, and how many streams.
    Forward(u32, u16),
    // A stream and its SSN.
    Stream(u16, u16),
    // The ports and the verification tag.
    Packet(u16, u16, u32),
    // Where a chunk of a packet ends, and where the next one is.
    Chunk(usize, usize),
    // A chunk held, and the size of its data.
    Held(ChunkPayloadData, u16),
    // The same in flight, with its marks and the number of its message.
    Sent(ChunkPayloadData, u16, Marks, u64),
    // A message's SSN, payload identifier and size.
    Message(u16, u32, usize),
}

impl fmt::Display for Answer {
    fn fmt<W: fmt::Write>(&self, f: &mut fmt::Formatter<W>) -> fmt::Result {
        match *self {
            Answer::Is(yes) => f.write_str(yes_or_no(yes)),
            Answer::Done => f.write_str("done"),
            Answer::Nothing => f.write_str("none"),
            Answer::NothingInHand => f.write_str("nothing in hand"),
            Answer::Refused(refusal) => write!(f, "{refusal}"),
            Answer::Number(n) => write!(f, "number {n}"),
            Answer::Distance(n) => write!(f, "{n}"),
            Answer::Order(order) => f.write_str(word(order)),
            Answer::Ordered(each) => ordered(f, each),
            Answer::Tsn(tsn) => write!(f, "tsn {tsn}"),
            Answer::Wrote(n) => write!(f, "wrote {n}"),
            Answer::Blocks(n) => write!(f, "blocks {n}"),
            Answer::Causes(n) => write!(f, "causes {n}"),
            Answer::Header(typ, flags, length) => write!(f, "header {typ} {flags} {length}"),
            Answer::Data(chunk) => write!(f, "data {}", Fields(chunk)),
            Answer::Sack(tsn, window, n, x) => write!(f, "sack {tsn} {window} {n} {x}"),
            Answer::Block(start, end) => write!(f, "block {start} {end}"),
            Answer::Forward(point, n) => write!(f, "forward {point} {n}"),
            Answer::Stream(stream, ssn) => write!(f, "stream {stream} {ssn}"),
            Answer::Packet(from, to, tag) => write!(f, "packet {from} {to} {tag}"),
            Answer::Chunk(end, next) => write!(f, "chunk {end} {next}"),
            Answer::Held(chunk, size) => write!(f, "chunk {} {size}", Fields(chunk)),
            Answer::Sent(chunk, size, marks, message) => {
                write!(f, "sent {} {size} {marks} {message}", Fields(chunk))
            }
            Answer::Message(ssn, ppi, size) => write!(f, "message {ssn} {ppi} {size}"),
        }
    }
}

fn yes_or_no(yes: bool) -> &'static str {
    if yes { "yes" } else { "no" }
}

fn word(order: Order) -> &'static str {
    match order {
        Order::Earlier => "earlier",
        Order::Same => "same",
        Order::Later => "later",
        Order::Opposite => "opposite",
    }
}

fn ordered<W: fmt::Write>(f: &mut fmt::Formatter<W>, each: [bool; 4]) -> fmt::Result {
    let [lt, lte, gt, gte] = each.map(yes_or_no);
    write!(f, "{lt} {lte} {gt} {gte}")
}

impl From<Result<bool, Refusal>> for Answer {
    fn from(told: Result<bool, Refusal>) -> Answer {
        told.map_or_else(Answer::Refused, Answer::Is)
    }
}

impl From<Result<(), Refusal>> for Answer {
    fn from(told: Result<(), Refusal>) -> Answer {
        told.map_or_else(Answer::Refused, |()| Answer::Done)
    }
}

impl From<Result<usize, Refusal>> for Answer {
    fn from(told: Result<usize, Refusal>) -> Answer {
        told.map_or_else(Answer::Refused, |n| Answer::Number(n as u64))
    }
}

impl From<Result<Option<u32>, Refusal>> for Answer {
    fn from(told: Result<Option<u32>, Refusal>) -> Answer {
        match told {
            Ok(Some(tsn)) => Answer::Tsn(tsn),
            Ok(None) => Answer::Nothing,
            Err(refusal) => Answer::Refused(refusal),
        }
    }
}

// What a call answers whose words are its own.
impl From<Result<Answer, Refusal>> for Answer {
    fn from(told: Result<Answer, Refusal>) -> Answer {
        told.unwrap_or_else(Answer::Refused)
    }
}
