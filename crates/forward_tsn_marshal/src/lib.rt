// The FORWARD TSN chunk of RFC 3758 section 3.2, written.
#![tactic(auto)]

ghost use Rattle.std.specs.Prelude.{◌≡◌};
ghost use Rattle.wire_model.specs.Refusal.{written};
ghost use Rattle.refusal.specs.Told.{count_told};
ghost use Rattle.forward_tsn_marshal.specs.Written.{forward_written};

use refusal::Refusal;

// The FORWARD TSN chunk of this point and these streams and SSNs, written to the front of the lent buffer.
pub fn marshal_to(
    out: &mut [u8],
    new_cumulative_tsn: u32,
    identifiers: &[u16],
    sequences: &[u16],
) -> Result<usize, Refusal>
    ensures { written (count_told result) out.new ≡ forward_written new_cumulative_tsn identifiers.now sequences.now out.old }
{
    let streams = identifiers.len();
    if 16381 < streams {
        return Err(Refusal::ChunkTooLarge);
    }
    if streams != sequences.len() {
        return Err(Refusal::ChunkTooLarge);
    }
    let size = 8 + 4 * streams;
    if out.len() < size {
        return Err(Refusal::ShortOutput);
    }
    fields::put_front_4(out, 192, 0, size as u16, new_cumulative_tsn);
    entries::put_pairs(&mut out[8..], identifiers, sequences);
    Ok(size)
}
