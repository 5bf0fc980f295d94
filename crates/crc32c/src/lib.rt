// CRC32c of lent bytes (RFC 4960, Appendix B), by a table of 256 words.
#![tactic(auto)]

ghost use Rattle.std.specs.Prelude.{◌≡◌};
ghost use Rattle.crc32c_table.specs.Crc.{through, crc32c};

// The register before the first byte; the sum is what a register lacks to it.
pub const ALL_ONES: u32 = 0xffff_ffff;

// The register after these bytes. From 64 of them on it pays to go through four parts side by side.
pub fn update(register: u32, bytes: &[u8]) -> u32
    ensures { result ≡ through register bytes.now }
{
    let words = crc32c_table::entries();
    if bytes.len() < 64 {
        return crc32c_lanes::one(&words, register, bytes);
    }
    let part = bytes.len() / 4;
    let ends = crc32c_lanes::four(&words, register, bytes, part);
    let far = ends.far;
    let r = crc32c_lanes::after_zeros(ends.first, far) ^ ends.second;
    let r = crc32c_lanes::after_zeros(r, far) ^ ends.third;
    let r = crc32c_lanes::after_zeros(r, far) ^ ends.fourth;
    let done = 4 * part;
    crc32c_lanes::one(&words, r, &bytes[done..])
}

// The sum of all bytes.
pub fn crc32c(bytes: &[u8]) -> u32
    ensures { result ≡ crc32c bytes.now }
{
    ALL_ONES - update(ALL_ONES, bytes)
}
