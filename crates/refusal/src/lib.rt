// Why a call says no: each reason has one of the documents' numbers, the same for every call. What an answer that may be refused tells is defined in specs/.
#![tactic(auto)]

ghost use Rattle.std.specs.Prelude.{◌≡◌};
ghost use Rattle.refusal.specs.Told.{number};

use std::fmt;

// In the order of their numbers, from 0 on.
#[derive(Clone, Copy, Debug, PartialEq, Eq)]
pub enum Refusal {
    // A queue's or message's record is unsound.
    Unsound,
    // Fewer bytes are lent than a header has.
    ShortHeader,
    // A header's length is below 4, or above the bytes lent.
    BadLength,
    // A chunk is not of the type asked for.
    OtherType,
    // A DATA chunk's length is below 16.
    ShortData,
    // A SACK chunk's length is below what its counts say.
    ShortSack,
    // A message would be larger than its stream's maximum.
    MessageTooLarge,
    // A buffer is shorter than the message that is read whole.
    ShortBuffer,
    // A table's or pool's limit would be passed.
    NoRoom,
    // More is to be written than a chunk can have, or lists are of unequal length.
    ChunkTooLarge,
    // What is written or handed out does not fit into what is lent for it.
    ShortOutput,
    // An index or a place is past the end, or a place is ahead of the first chunk.
    OutOfRange,
    // A FORWARD TSN chunk's length is not 8 and 4 for each pair.
    BadForwardTsn,
    // Fewer bytes are lent than a packet's common header has.
    ShortPacket,
    // A packet's checksum is not that of its bytes.
    WrongChecksum,
    // A DATA chunk is without data.
    NoData,
    // A cause's length is bad, or one to three bytes stand where a cause should.
    BadCause,
    // A TSN is opposite to the cumulative one.
    OppositeTsn,
    // A TSN is in flight already.
    HeldTsn,
    // A stream's number is 8 or above.
    NoStream,
}

impl Refusal {
    // Its number in the documents.
    pub fn number(self) -> u8
        ensures { result ≡ number self }
    {
        self as u8
    }
}

impl fmt::Display for Refusal {
    fn fmt<W: fmt::Write>(&self, f: &mut fmt::Formatter<W>) -> fmt::Result {
        write!(f, "refused {}", self.number())
    }
}
