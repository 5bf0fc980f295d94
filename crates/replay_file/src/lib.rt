// A file of captured chunks: a version byte at its front, and then records, each the length of a chunk and the chunk.
#![tactic(auto)]

ghost use Rattle.std.specs.Prelude.{◌≡◌};
ghost use Rattle.replay_file.specs.File.{versioned, start, record_told, records_most};

pub const VERSION: u8 = 1;

// What a record is: cut short, or a chunk of so many bytes behind its length.
#[derive(Clone, Copy)]
pub enum Record {
    Cut,
    Chunk(u16),
}

// Whether the file has the version that is read here.
pub fn is_known(file: &[u8]) -> bool
    ensures { result ≡ versioned file.now }
{
    if file.len() == 0 {
        return false;
    }
    file[0] == VERSION
}

// The record at the front of the rest of a file; none where no byte is left.
pub fn record_at(rest: &[u8]) -> Option<Record>
    ensures { record_told result ≡ start rest.now }
{
    let left = rest.len();
    if left == 0 {
        return None;
    }
    if left < 2 {
        return Some(Record::Cut);
    }
    let size = wire::get_u16(rest, 0);
    if left < 2 + size as usize {
        return Some(Record::Cut);
    }
    Some(Record::Chunk(size))
}

// So many records are replayed at most: 2^33.
pub fn most_records() -> u64
    ensures { result ≡ records_most }
{
    8589934592
}
