// What a C call of the DATA chunk is made of: where the user data stands. The values go through references, 0 beside a refusal, and the result is -1 or the
// refusal's number.
#![tactic(auto)]

ghost use Rattle.std.specs.Prelude.{◌≡◌, length};
ghost use Rattle.chunk.specs.Header.{HeaderFront};
ghost use Rattle.sctp_receive_result.specs.Result.{told, back};
ghost use Rattle.sctp_receive_places.specs.Places.{span, user_span};

use sctp_receive_result::refused;

// Where the user data of the chunk that the lent bytes begin with stands in them: from byte 16 up to the length; 1 2 3 4 15.
pub fn user_data(raw: &[u8], start: &mut usize, size: &mut usize) -> i32
    ensures { (f : HeaderFront raw.now) → told (back result) (span start.new size.new) ≡ user_span (length raw.now) f.fields }
{
    let answer = chunk_payload_data::header(raw);
    match answer {
        Ok(h) => {
            *start = 16;
            *size = h.length as usize - 16;
            -1
        }
        Err(e) => {
            *start = 0;
            *size = 0;
            refused(e)
        }
    }
}
