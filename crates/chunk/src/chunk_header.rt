// The chunk header of RFC 4960 section 3.2.
ghost use Rattle.std.specs.Prelude.{◌≡◌, ℕ, length};
ghost use Rattle.chunk.specs.Header.{HeaderFront, header_told, header_as_told, short_as, header_read, header_checks, kind_checks, Room};
ghost use Rattle.chunk.specs.declared.chunk_header.Unfit.TheVariants.{Refused};

use refusal::Refusal;

// Type, flags, and the length, which counts these 4 bytes and the value, not padding.
#[derive(Clone, Copy, Debug, PartialEq, Eq)]
pub struct ChunkHeader {
    pub typ: u8,
    pub flags: u8,
    pub length: u16,
}

// Why a chunk is not one of its type: its header says no, or its length is below the least of the type, which has a number of its own there.
#[derive(Clone, Copy, Debug, PartialEq, Eq)]
pub enum Unfit {
    Refused(Refusal),
    Below,
}

impl Unfit {
    // The refusal of a type whose chunks below the least length are refused with this one.
    pub fn told(self, short: Refusal) -> Refusal
        ensures { result ≡ short_as short self }
    {
        match self {
            Unfit::Refused(e) => e,
            Unfit::Below => short,
        }
    }
}

impl From<Refusal> for Unfit {
    ghost from_gives = { λ e u. u ≡ Refused e };

    fn from(e: Refusal) -> Unfit {
        Unfit::Refused(e)
    }
}

// The header that the lent bytes begin with. Bytes past its length are ignored.
pub fn unmarshal(raw: &[u8]) -> Result<ChunkHeader, Refusal>
    ensures { (f : HeaderFront raw.now) → header_told result ≡ header_read (header_checks (length raw.now) f.fields) f.fields }
{
    read(raw)
}

// The same, with what its length is known to be.
fn read(raw: &[u8]) -> Result<ChunkHeader, Refusal>
    ensures result_value { (f : HeaderFront raw.now) → header_told result ≡ header_read (header_checks (length raw.now) f.fields) f.fields }
    ensures room { Room 4 (length raw.now) result }
{
    if raw.len() < 4 {
        return Err(Refusal::ShortHeader);
    }
    let length = wire::get_u16(raw, 2);
    if length < 4 {
        return Err(Refusal::BadLength);
    }
    if raw.len() < length as usize {
        return Err(Refusal::BadLength);
    }
    let typ = wire::get_u8(raw, 0);
    let flags = wire::get_u8(raw, 1);
    Ok(ChunkHeader { typ, flags, length })
}

// The same for a chunk of one type: another type is refused with 3; a length below the least of the type is told apart, so that each type gives it its own number.
pub fn unmarshal_as(raw: &[u8], kind: u8, least: u16) -> Result<ChunkHeader, Unfit>
    ensures result_value { (short : ℕ) → (f : HeaderFront raw.now) → header_as_told short result ≡ header_read (kind_checks kind least short (length raw.now) f.fields) f.fields }
    ensures room { Room least (length raw.now) result }
{
    let h = read(raw)?;
    if h.typ != kind {
        return Err(Unfit::Refused(Refusal::OtherType));
    }
    if h.length < least {
        return Err(Unfit::Below);
    }
    Ok(h)
}
