// The causes of an ERROR or ABORT chunk, and of the chunks that they hold: a chunk reader and a cause-list reader that call each other.
// Each call is on fewer bytes; no other limit of depth is set.
#![tactic(auto)]

ghost use Rattle.std.specs.Prelude.{◌≡◌, length, drop};
ghost use Rattle.cause_parts.specs.Causes.{causes, chunk_held};
ghost use Rattle.cause_parts.specs.Lists.{noted};
ghost use Rattle.refusal.specs.Told.{count_told};
ghost use Rattle.error_causes.specs.Counts.{counted, CountRoom, Placed};

use refusal::Refusal;

// Unrecognized Chunk Type, the one cause that may hold a chunk.
const UNRECOGNIZED_CHUNK_TYPE: u16 = 6;

// The chunk in a cause's value, which goes from a place to the end of the lent bytes: of ERROR and ABORT its causes, one deeper; of other kinds the header alone.
#[cycle(read_causes_read_chunk)]
fn read_chunk(
    raw: &[u8],
    at: usize,
    depth: u16,
    count: usize,
    told: u8,
    list: &mut [u16],
) -> Result<usize, Refusal>
    requires { Placed (length raw.now) at depth count }
    ensures result_value { count_told result ≡ counted count (chunk_held depth at (drop at raw.now)) }
    ensures list_after { list.new ≡ noted told count (chunk_held depth at (drop at raw.now)).causes list.old }
    ensures count_room { CountRoom (length raw.now) result }
{
    match cause_parts::chunk_at(raw, at)? {
        None => Ok(count),
        Some(end) => read_causes(&raw[..end], at + 4, depth + 1, count, told, list),
    }
}

// The causes from a place to the end of the lent bytes, each followed by what it holds; `count` are read already, and it answers how many there are then. One thing is told of each, in a list as far as it goes:
// a list for each thing would make every call's frame twice as large, and a nesting is as deep as its chunk lets it be.
#[cycle(read_causes_read_chunk)]
pub fn read_causes(
    raw: &[u8],
    from: usize,
    depth: u16,
    count: usize,
    told: u8,
    list: &mut [u16],
) -> Result<usize, Refusal>
    requires { Placed (length raw.now) from depth count }
    ensures result_value { count_told result ≡ counted count (causes depth from (drop from raw.now)) }
    ensures list_after { list.new ≡ noted told count (causes depth from (drop from raw.now)).causes list.old }
    ensures count_room { CountRoom (length raw.now) result }
{
    let mut at = from;
    let mut n = count;
    while at < raw.len() {
        let front = cause_parts::cause_at(raw, at)?;
        let code = front.code;
        let size = front.size;
        let start = at + 4;
        let end = at + size as usize;
        cause_notes::note(told, n, at, depth, front, list);
        n += 1;
        at += packet_parts::padded_size(size);
        if code == UNRECOGNIZED_CHUNK_TYPE {
            n = read_chunk(&raw[..end], start, depth, n, told, list)?;
        }
    }
    Ok(n)
}
