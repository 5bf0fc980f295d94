// The SACK chunk of RFC 4960 section 3.3.4, written.
#![tactic(auto)]

ghost use Rattle.std.specs.Prelude.{◌≡◌};
ghost use Rattle.wire_model.specs.Refusal.{written};
ghost use Rattle.refusal.specs.Told.{count_told};
ghost use Rattle.sack_marshal.specs.Written.{sack_written};

use refusal::Refusal;

// The SACK chunk of these fields and lists, written to the front of the lent buffer.
pub fn marshal_to(
    out: &mut [u8],
    cumulative: u32,
    window: u32,
    starts: &[u16],
    ends: &[u16],
    duplicates: &[u32],
) -> Result<usize, Refusal>
    ensures { written (count_told result) out.new ≡ sack_written cumulative window starts.now ends.now duplicates.now out.old }
{
    let blocks = starts.len();
    let tsns = duplicates.len();
    if 16379 < blocks + tsns {
        return Err(Refusal::ChunkTooLarge);
    }
    if blocks != ends.len() {
        return Err(Refusal::ChunkTooLarge);
    }
    let list = 16 + 4 * blocks;
    let size = list + 4 * tsns;
    if out.len() < size {
        return Err(Refusal::ShortOutput);
    }
    fields::put_front_4422(
        out,
        3,
        0,
        size as u16,
        cumulative,
        window,
        blocks as u16,
        tsns as u16,
    );
    fields::put_pairs_and_words(&mut out[16..], starts, ends, duplicates);
    Ok(size)
}
