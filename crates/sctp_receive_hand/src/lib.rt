// What the C calls of the message in hand are made of: the fields that C keeps, put together, and the answers, taken apart: the values, 0 and false beside a
// refusal, and the result, -1 or the refusal's number.
#![tactic(auto)]

ghost use Rattle.std.specs.Prelude.{◌≡◌};
ghost use Rattle.refusal.specs.Told.{flag_told};
ghost use Rattle.chunks.specs.Message.{piece_told};
ghost use Rattle.sctp_receive_result.specs.Result.{told, back};
ghost use Rattle.sctp_receive_model.specs.States.{hand_from, piece_from};

use chunks::{Chunks, Part};
use refusal::Refusal;

// The message of these fields. Its SSN and its identifier play no part in its calls.
pub fn hand(bytes: usize, position: usize, given: bool) -> Chunks
    ensures { result ≡ hand_from bytes position given }
{
    Chunks {
        ssn: 0,
        ppi: 0,
        size: bytes,
        position,
        given,
    }
}

// Yes or no.
pub fn flag(answer: Result<bool, Refusal>, is: &mut bool) -> i32
    ensures { told (back result) is.new ≡ flag_told answer }
{
    match answer {
        Ok(b) => {
            *is = b;
            -1
        }
        Err(reason) => {
            *is = false;
            sctp_receive_result::refused(reason)
        }
    }
}

// What a next piece leaves and tells, each number by itself, as C has it.
#[derive(Clone, Copy)]
pub struct NextPiece {
    pub bytes: usize,
    pub position: usize,
    pub given: bool,
    pub found: bool,
    pub start: usize,
    pub size: usize,
    pub code: i32,
}

// The message that is left, and the place of a piece, if one comes.
pub fn piece(message: Chunks, answer: Result<Option<Part>, Refusal>) -> NextPiece
    ensures { (hand_from result.bytes result.position result.given ≡ hand_from message.size message.position message.given) × (told (back result.code) (piece_from result.found result.start result.size) ≡ piece_told answer) }
{
    let mut parts = NextPiece {
        bytes: message.size,
        position: message.position,
        given: message.given,
        found: false,
        start: 0,
        size: 0,
        code: -1,
    };
    match answer {
        Ok(Some(p)) => {
            parts.found = true;
            parts.start = p.start;
            parts.size = p.size;
        }
        Ok(None) => {}
        Err(reason) => parts.code = sctp_receive_result::refused(reason),
    }
    parts
}
