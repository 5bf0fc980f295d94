// The fields of a SACK chunk (RFC 4960 section 3.3.4), read.
#![tactic(auto)]

ghost use Rattle.std.specs.Prelude.{◌≡◌, ◌≤◌, length};
ghost use Rattle.sack_fields.specs.Sack.{sack_held, sack_told, SackFront, sack_read, Lists};

use chunk::chunk_header;
use refusal::Refusal;

// The fields of a SACK chunk before its lists, with N and X, the counts of the two lists.
#[derive(Clone, Copy)]
pub struct ChunkSelectiveAck {
    pub cumulative_tsn_ack: u32,
    pub advertised_receiver_window_credit: u32,
    pub gap_ack_blocks: u16,
    pub duplicate_tsns: u16,
}

// The fields of the SACK chunk that the lent bytes begin with, with what its lists are known to be.
pub fn read(raw: &[u8]) -> Result<ChunkSelectiveAck, Refusal>
    ensures result_value { (f : SackFront raw.now) → sack_told result ≡ sack_read (length raw.now) f.fields }
    ensures lists { Lists (length raw.now) result }
{
    let header = chunk_header::unmarshal_as(raw, 3, 16).map_err(|e| e.told(Refusal::ShortSack))?;
    let length = header.length as usize;
    let sack = fields(raw);
    let blocks = sack.gap_ack_blocks as usize;
    let duplicates = sack.duplicate_tsns as usize;
    if length < 16 + 4 * blocks + 4 * duplicates {
        return Err(Refusal::ShortSack);
    }
    Ok(sack)
}

// The fields behind a header.
fn fields(raw: &[u8]) -> ChunkSelectiveAck
    requires { 16 ≤ length raw.now }
    ensures { (f : SackFront raw.now) → sack_held result ≡ f.fields.fields }
{
    let cumulative_tsn_ack = wire::get_u32(raw, 4);
    let advertised_receiver_window_credit = wire::get_u32(raw, 8);
    let gap_ack_blocks = wire::get_u16(raw, 12);
    let duplicate_tsns = wire::get_u16(raw, 14);
    ChunkSelectiveAck {
        cumulative_tsn_ack,
        advertised_receiver_window_credit,
        gap_ack_blocks,
        duplicate_tsns,
    }
}
