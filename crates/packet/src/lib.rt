// The common header of a packet: RFC 4960 section 3.1, with the checksum of Appendix B.
#![tactic(auto)]

ghost use Rattle.std.specs.Prelude.{◌≡◌, ◌++◌, ◌≤◌, length, take, drop};
ghost use Rattle.crc32c.specs.Crc.{crc32c, little_endian};
ghost use Rattle.packet.specs.Header.{CommonFront, common_told, common_read};

use refusal::Refusal;

#[derive(Clone, Copy)]
pub struct CommonHeader {
    pub source_port: u16,
    pub destination_port: u16,
    pub verification_tag: u32,
}

// The sum of the whole packet, with the field as four bytes of 0.
fn sum(raw: &[u8]) -> u32
    requires { 12 ≤ length raw.now }
    ensures { result ≡ crc32c (take 8 raw.now ++ (little_endian 4 0 ++ drop 12 raw.now)) }
{
    let zeros = [0u8; 4];
    let front = crc32c::update(crc32c::ALL_ONES, &raw[..8]);
    let header = crc32c::update(front, &zeros);
    crc32c::ALL_ONES - crc32c::update(header, &raw[12..])
}

// The common header of the packet, if its checksum is right.
pub fn unmarshal(raw: &[u8]) -> Result<CommonHeader, Refusal>
    ensures { (f : CommonFront raw.now) → common_told result ≡ common_read raw.now f.fields }
{
    if raw.len() < 12 {
        return Err(Refusal::ShortPacket);
    }
    let right = packet_parts::swapped(sum(raw));
    let stands = wire::get_u32(raw, 8);
    if stands != right {
        return Err(Refusal::WrongChecksum);
    }
    let source_port = wire::get_u16(raw, 0);
    let destination_port = wire::get_u16(raw, 2);
    let verification_tag = wire::get_u32(raw, 4);
    Ok(CommonHeader {
        source_port,
        destination_port,
        verification_tag,
    })
}
