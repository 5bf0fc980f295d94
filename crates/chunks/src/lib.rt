// The message in hand: its bytes stand at the front of a lent buffer, and a record says how many they are and how far a piece reader has come.
#![tactic(auto)]

ghost use Rattle.std.specs.Prelude.{◌≡◌};
ghost use Rattle.wire_model.specs.Refusal.{written};
ghost use Rattle.refusal.specs.Told.{flag_told, count_told};
ghost use Rattle.chunks.specs.Message.{piece_told, unsound, size, is_empty, whole_read, after, next_piece};

use refusal::Refusal;

// A message: its SSN (0 where it is unordered), its payload identifier as it was sent, its number of bytes, the place of the next piece, and
// whether an empty message's one piece was given.
#[derive(Clone, Copy)]
pub struct Chunks {
    pub ssn: u16,
    pub ppi: u32,
    pub size: usize,
    pub position: usize,
    pub given: bool,
}

// Where a piece stands in the buffer.
#[derive(Clone, Copy)]
pub struct Part {
    pub start: usize,
    pub size: usize,
}

impl Chunks {
    // Refusal 0: the message is longer than its buffer, or the position is past the message.
    fn unsound(self, buffer: &[u8]) -> bool
        ensures { result ≡ unsound self buffer.now }
    {
        hand_place::unsound(buffer.len(), self.size, self.position)
    }

    // How many bytes the message has.
    pub fn len(self, buffer: &[u8]) -> Result<usize, Refusal>
        ensures { count_told result ≡ size self buffer.now }
    {
        if self.unsound(buffer) {
            return Err(Refusal::Unsound);
        }
        Ok(self.size)
    }

    // Whether it has none.
    pub fn is_empty(self, buffer: &[u8]) -> Result<bool, Refusal>
        ensures { flag_told result ≡ is_empty self buffer.now }
    {
        let n = self.len(buffer)?;
        Ok(n == 0)
    }

    // The whole message, copied to the front of a lent buffer; where that is too short, what fits of it, and 7.
    pub fn read(self, buffer: &[u8], out: &mut [u8]) -> Result<usize, Refusal>
        ensures { written (count_told result) out.new ≡ whole_read self buffer.now out.old }
    {
        if self.unsound(buffer) {
            return Err(Refusal::Unsound);
        }
        let n = self.size;
        if hand_copy::copy(buffer, n, out) {
            return Err(Refusal::ShortBuffer);
        }
        Ok(n)
    }

    // The place of the next piece, of at most so many bytes; none where all was given.
    pub fn next(&mut self, buffer: &[u8], most: usize) -> Result<Option<Part>, Refusal>
        ensures { after (piece_told result) self.new ≡ next_piece self.old buffer.now most }
    {
        if self.unsound(buffer) {
            return Err(Refusal::Unsound);
        }
        if hand_place::finished(self.size, self.position, self.given) {
            return Ok(None);
        }
        let start = self.position;
        let piece = hand_place::piece(self.size, start, self.given, most);
        self.position = piece.position;
        self.given = piece.given;
        Ok(Some(Part {
            start,
            size: piece.size,
        }))
    }
}
