// The SACK chunk of RFC 4960 section 3.3.4: read here; its lists' entries, and the chunk written, are handed on.
#![tactic(auto)]

ghost use Rattle.std.specs.Prelude.{◌≡◌, length};
ghost use Rattle.chunk.specs.Part.{part_told};
ghost use Rattle.chunk_selective_ack.specs.Sack.{sack_told, SackFront, sack_read, blocks_part, duplicates_part};

use refusal::Refusal;
pub use sack_entries::{GapAckBlock, duplicate_tsn_at, gap_ack_block_at};
pub use sack_fields::ChunkSelectiveAck;
use sack_fields::read;
pub use sack_marshal::marshal_to;

// The fields of the SACK chunk that the lent bytes begin with. Value bytes after its lists are ignored.
pub fn unmarshal(raw: &[u8]) -> Result<ChunkSelectiveAck, Refusal>
    ensures { (f : SackFront raw.now) → sack_told result ≡ sack_read (length raw.now) f.fields }
{
    read(raw)
}

// The gap ack blocks of the chunk that the lent bytes begin with, as a part of them.
pub fn gap_ack_blocks(raw: &[u8]) -> Result<&[u8], Refusal>
    ensures { (f : SackFront raw.now) → part_told result ≡ blocks_part raw.entry f.fields }
{
    let s = read(raw)?;
    let end = 16 + 4 * (s.gap_ack_blocks as usize);
    Ok(&raw[16..end])
}

// The duplicate TSNs of the chunk that the lent bytes begin with, as a part of them.
pub fn duplicate_tsns(raw: &[u8]) -> Result<&[u8], Refusal>
    ensures { (f : SackFront raw.now) → part_told result ≡ duplicates_part raw.entry f.fields }
{
    let s = read(raw)?;
    let start = 16 + 4 * (s.gap_ack_blocks as usize);
    let end = start + 4 * (s.duplicate_tsns as usize);
    Ok(&raw[start..end])
}
