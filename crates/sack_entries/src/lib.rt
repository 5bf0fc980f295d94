// The entries of a SACK chunk's lists: gap ack blocks and duplicate TSNs, each at an index.
#![tactic(auto)]

ghost use Rattle.std.specs.Prelude.{◌≡◌};
ghost use Rattle.sack_entries.specs.Entries.{BlockFront, block_told, block_read, TsnFront, tsn_told, tsn_read};

use refusal::Refusal;

#[derive(Clone, Copy)]
pub struct GapAckBlock {
    pub start: u16,
    pub end: u16,
}

// The gap ack block at an index of such a part.
pub fn gap_ack_block_at(part: &[u8], i: usize) -> Result<GapAckBlock, Refusal>
    ensures { (f : BlockFront part.now i) → block_told result ≡ block_read part.now i f.fields }
{
    if part.len() / 4 <= i {
        return Err(Refusal::OutOfRange);
    }
    let at = 4 * i;
    let start = wire::get_u16(part, at);
    let end = wire::get_u16(part, at + 2);
    Ok(GapAckBlock { start, end })
}

// The duplicate TSN at an index of such a part.
pub fn duplicate_tsn_at(part: &[u8], i: usize) -> Result<u32, Refusal>
    ensures { (f : TsnFront part.now i) → tsn_told result ≡ tsn_read part.now i f.fields }
{
    if part.len() / 4 <= i {
        return Err(Refusal::OutOfRange);
    }
    Ok(wire::get_u32(part, 4 * i))
}
