// What the C calls of a FORWARD TSN chunk's streams and SSNs are made of: one pair read, and the chunk written. Out values are 0 beside a refusal.
#![tactic(auto)]

ghost use Rattle.std.specs.Prelude.{◌≡◌};
ghost use Rattle.wire_model.specs.Refusal.{written};
ghost use Rattle.chunk_forward_tsn.specs.Layout.{pair};
ghost use Rattle.chunk_forward_tsn.specs.ForwardTsn.{PairFront, pair_read, forward_written};
ghost use Rattle.sctp_receive_result.specs.Result.{told, back};

use sctp_receive_result::{counted, refused};

// The stream and SSN at an index of such a part; 11.
pub fn stream_at(part: &[u8], i: usize, identifier: &mut u16, sequence: &mut u16) -> i32
    ensures { (f : PairFront part.now i) → told (back result) (pair identifier.new sequence.new) ≡ pair_read part.now i f.fields }
{
    let answer = chunk_forward_tsn::stream_at(part, i);
    match answer {
        Ok(s) => {
            *identifier = s.identifier;
            *sequence = s.sequence;
            -1
        }
        Err(e) => {
            *identifier = 0;
            *sequence = 0;
            refused(e)
        }
    }
}

// The FORWARD TSN chunk of this point and these streams and SSNs, written to the front of the lent buffer; n is its byte count; 9 and 10.
pub fn marshal_to(
    out: &mut [u8],
    new_cumulative_tsn: u32,
    identifiers: &[u16],
    sequences: &[u16],
    n: &mut usize,
) -> i32
    ensures { written (told result n.new) out.new ≡ forward_written new_cumulative_tsn identifiers.now sequences.now out.old }
{
    let answer = chunk_forward_tsn::marshal_to(out, new_cumulative_tsn, identifiers, sequences);
    counted(answer, n)
}
