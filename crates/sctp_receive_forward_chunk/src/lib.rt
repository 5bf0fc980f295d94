// What the C calls that read a FORWARD TSN chunk are made of. Out values are 0 beside a refusal.
#![tactic(auto)]

ghost use Rattle.std.specs.Prelude.{◌≡◌, length};
ghost use Rattle.chunk_forward_tsn.specs.ForwardTsn.{forward, ForwardFront, forward_read};
ghost use Rattle.sctp_receive_result.specs.Result.{told, back};
ghost use Rattle.sctp_receive_places.specs.Places.{span, pairs_span};

use sctp_receive_result::refused;

// The new cumulative TSN of the FORWARD TSN chunk that the lent bytes begin with, and how many pairs stand behind it; 1 2 3 12.
pub fn unmarshal(raw: &[u8], new_cumulative_tsn: &mut u32, streams: &mut u16) -> i32
    ensures { (f : ForwardFront raw.now) → told (back result) (forward new_cumulative_tsn.new streams.new) ≡ forward_read (length raw.now) f.fields }
{
    let answer = chunk_forward_tsn::unmarshal(raw);
    match answer {
        Ok(f) => {
            *new_cumulative_tsn = f.new_cumulative_tsn;
            *streams = f.streams;
            -1
        }
        Err(e) => {
            *new_cumulative_tsn = 0;
            *streams = 0;
            refused(e)
        }
    }
}

// Where the streams and SSNs of the chunk that the lent bytes begin with stand in them: from byte 8 up to the length; 1 2 3 12.
pub fn streams(raw: &[u8], start: &mut usize, size: &mut usize) -> i32
    ensures { (f : ForwardFront raw.now) → told (back result) (span start.new size.new) ≡ pairs_span (length raw.now) f.fields.header }
{
    let answer = chunk_forward_tsn::unmarshal(raw);
    match answer {
        Ok(f) => {
            *start = 8;
            *size = 4 * (f.streams as usize);
            -1
        }
        Err(e) => {
            *start = 0;
            *size = 0;
            refused(e)
        }
    }
}
