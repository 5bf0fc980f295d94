// What reading and writing a packet share: the chunk that bytes begin with, its padding, and the order of the checksum's bytes.
#![tactic(auto)]

ghost use Rattle.std.specs.Prelude.{◌≡◌, length};
ghost use Rattle.crc32c.specs.Crc.{little_endian};
ghost use Rattle.wire_model.specs.BigEndian.{big_endian};
ghost use Rattle.refusal.specs.Told.{count_told};
ghost use Rattle.packet_parts.specs.Fronts.{size_read, SizeRoom, rounded};

use chunk::chunk_header;
use refusal::Refusal;

// The byte count of the chunk that the lent bytes begin with, without padding.
pub fn chunk_size(raw: &[u8]) -> Result<u16, Refusal>
    ensures result_value { count_told result ≡ size_read raw.now }
    ensures size_room { SizeRoom (length raw.now) result }
{
    let front = chunk_header::unmarshal(raw)?;
    Ok(front.length)
}

// The byte count with padding.
pub fn padded_size(size: u16) -> usize
    ensures { result ≡ rounded size }
{
    (size as usize + 3) / 4 * 4
}

// The number whose bytes stand the other way round.
pub fn swapped(x: u32) -> u32
    ensures { big_endian 4 result ≡ little_endian 4 x }
{
    let b = x / 256;
    let c = b / 256;
    let d = c / 256;
    ((x % 256 * 256 + b % 256) * 256 + c % 256) * 256 + d
}
