// The entries of a FORWARD TSN chunk's list: a stream and an SSN at an index.
#![tactic(auto)]

ghost use Rattle.std.specs.Prelude.{◌≡◌};
ghost use Rattle.forward_tsn_entries.specs.Entries.{PairFront, pair_told, pair_read};

use refusal::Refusal;

// A stream, and the largest SSN that is skipped in it.
#[derive(Clone, Copy)]
pub struct ChunkForwardTsnStream {
    pub identifier: u16,
    pub sequence: u16,
}

// The stream and SSN at an index of such a part.
pub fn stream_at(part: &[u8], i: usize) -> Result<ChunkForwardTsnStream, Refusal>
    ensures { (f : PairFront part.now i) → pair_told result ≡ pair_read part.now i f.fields }
{
    if part.len() / 4 <= i {
        return Err(Refusal::OutOfRange);
    }
    let at = 4 * i;
    let identifier = wire::get_u16(part, at);
    let sequence = wire::get_u16(part, at + 2);
    Ok(ChunkForwardTsnStream {
        identifier,
        sequence,
    })
}
