// The FORWARD TSN chunk of RFC 3758 section 3.2: read here; an entry of its list, and the chunk written, are handed on.
#![tactic(auto)]

ghost use Rattle.std.specs.Prelude.{◌≡◌, length};
ghost use Rattle.chunk.specs.Header.{HeaderFront, header_told, header_read, Room};
ghost use Rattle.chunk.specs.Part.{part_told};
ghost use Rattle.chunk_forward_tsn.specs.ForwardTsn.{forward_told, ForwardFront, forward_checks, forward_read, pairs_part};

use chunk::chunk_header;
use chunk::chunk_header::ChunkHeader;
pub use forward_tsn_entries::{ChunkForwardTsnStream, stream_at};
pub use forward_tsn_marshal::marshal_to;
use refusal::Refusal;

// The new cumulative TSN, and how many streams are named behind it.
#[derive(Clone, Copy)]
pub struct ChunkForwardTsn {
    pub new_cumulative_tsn: u32,
    pub streams: u16,
}

// The header of the FORWARD TSN chunk that the lent bytes begin with, if that is one whole chunk of whole pairs.
fn header(raw: &[u8]) -> Result<ChunkHeader, Refusal>
    ensures result_value { (f : HeaderFront raw.now) → header_told result ≡ header_read (forward_checks (length raw.now) f.fields) f.fields }
    ensures room { Room 8 (length raw.now) result }
{
    let h = chunk_header::unmarshal_as(raw, 192, 8).map_err(|e| e.told(Refusal::BadForwardTsn))?;
    if h.length % 4 != 0 {
        return Err(Refusal::BadForwardTsn);
    }
    Ok(h)
}

// The fields of the FORWARD TSN chunk that the lent bytes begin with. Its flags are ignored.
pub fn unmarshal(raw: &[u8]) -> Result<ChunkForwardTsn, Refusal>
    ensures { (f : ForwardFront raw.now) → forward_told result ≡ forward_read (length raw.now) f.fields }
{
    let h = header(raw)?;
    let new_cumulative_tsn = wire::get_u32(raw, 4);
    let streams = (h.length - 8) / 4;
    Ok(ChunkForwardTsn {
        new_cumulative_tsn,
        streams,
    })
}

// The streams and SSNs of the chunk that the lent bytes begin with, as a part of them.
pub fn streams(raw: &[u8]) -> Result<&[u8], Refusal>
    ensures { (f : HeaderFront raw.now) → part_told result ≡ pairs_part raw.entry f.fields }
{
    let h = header(raw)?;
    Ok(&raw[8..h.length as usize])
}
