// The header of a DATA chunk (RFC 4960 section 3.3.1), and its user data where they lie.
#![tactic(auto)]

ghost use Rattle.std.specs.Prelude.{◌≡◌, length};
ghost use Rattle.chunk.specs.Header.{HeaderFront, header_told, header_read, Room};
ghost use Rattle.chunk.specs.Part.{part_told};
ghost use Rattle.data_header.specs.Checks.{data_checks, user_data};

use chunk::chunk_header;
use chunk::chunk_header::ChunkHeader;
use refusal::Refusal;

// The header of the DATA chunk that the lent bytes begin with, if that is one whole chunk with data.
pub fn header(raw: &[u8]) -> Result<ChunkHeader, Refusal>
    ensures result_value { (f : HeaderFront raw.now) → header_told result ≡ header_read (data_checks (length raw.now) f.fields) f.fields }
    ensures room { Room 16 (length raw.now) result }
{
    let h = chunk_header::unmarshal_as(raw, 0, 16).map_err(|e| e.told(Refusal::ShortData))?;
    if h.length == 16 {
        return Err(Refusal::NoData);
    }
    Ok(h)
}

// The user data of the chunk that the lent bytes begin with, as a part of them.
pub fn user_data(raw: &[u8]) -> Result<&[u8], Refusal>
    ensures { (f : HeaderFront raw.now) → part_told result ≡ user_data raw.entry f.fields }
{
    let h = header(raw)?;
    Ok(&raw[16..h.length as usize])
}
