// What is acknowledged, as it goes out.
use print::Spaced;
use std::fmt;

// The window that the SACKs advertise.
pub const WINDOW: u32 = 1500;

// The most entries of a list, and bytes of a chunk, that are shown.
pub const ENTRIES: usize = 8;

pub const BYTES: usize = 64;

// The cumulative TSN, the gap report and the chunk's bytes: of each list and of the bytes so many at the front.
#[derive(Clone, Copy)]
pub struct Sack {
    pub cumulative: u32,
    pub blocks: usize,
    pub starts: [u16; ENTRIES],
    pub ends: [u16; ENTRIES],
    pub size: usize,
    pub bytes: [u8; BYTES],
}

impl fmt::Display for Sack {
    fn fmt<W: fmt::Write>(&self, f: &mut fmt::Formatter<W>) -> fmt::Result {
        writeln!(f, "  cumulative TSN  {}", self.cumulative)?;
        write!(f, "  gap report      ")?;
        if self.blocks == 0 {
            write!(f, "none")?;
        }
        let blocks = self.starts.iter().zip(&self.ends).take(self.blocks);
        for (i, (start, end)) in blocks.enumerate() {
            if 0 < i {
                write!(f, ", ")?;
            }
            write!(f, "{start}-{end}")?;
        }
        writeln!(f)?;
        writeln!(
            f,
            "  SACK            {}",
            Spaced(&self.bytes[..self.size.min(BYTES)])
        )
    }
}
