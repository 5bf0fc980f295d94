// A number that stands for a list of them.
pub fn words(s: &[u32]) -> u64 {
    s.iter().fold(0, |d, n| more(d, *n))
}

pub fn bytes(s: &[u8]) -> u64 {
    s.iter().fold(0, |d, n| more(d, u32::from(*n)))
}

// The high half of each number ahead of the low one.
pub fn longs(s: &[u64]) -> u64 {
    s.iter().fold(
        0,
        |d, n| more(more(d, (n >> 32) as u32), (n & 0xFFFF_FFFF) as u32),
    )
}

fn more(d: u64, n: u32) -> u64 {
    d % 4294967291 * 31 + u64::from(n)
}
