// Searches of a table's rows, for a TSN and for a stream. Each passes over the n rows from one on.
#![tactic(auto)]

ghost use Rattle.std.specs.Prelude.{◌≡◌, ◌+◌, ◌*◌, ◌≤◌, length, take, drop};
ghost use Rattle.table.specs.Rows.{rows_of, some, ahead_of, has_tsn, has_stream};

// Whether a TSN is held by one of the n rows from one on: a pass over all of them.
pub fn has_tsn(table: &[u32], size: usize, from: usize, n: usize, tsn: u32) -> bool
    requires table_len { length table.now ≡ 4 * size }
    requires n_bound { from + n ≤ size }
    ensures { result ≡ some (has_tsn tsn) (take n (drop from (rows_of size table.now))) }
{
    let tsns = size + from;
    let mut found = false;
    for held in &table[tsns..tsns + n] {
        found = found | (*held == tsn);
    }
    found
}

// Whether a stream is that of one of the n rows from one on.
pub fn has_stream(table: &[u32], size: usize, from: usize, n: usize, stream: u16) -> bool
    requires table_len { length table.now ≡ 4 * size }
    requires n_bound { from + n ≤ size }
    ensures { result ≡ some (has_stream stream) (take n (drop from (rows_of size table.now))) }
{
    let wanted = stream as u32;
    let ids = 2 * size + from;
    let mut found = false;
    for id in &table[ids..ids + n] {
        found = found | (*id / 65536 == wanted);
    }
    found
}

// How many of the n rows from one on stand ahead of the first with this TSN; n where none has it.
pub fn find_tsn(table: &[u32], size: usize, from: usize, n: usize, tsn: u32) -> usize
    requires table_len { length table.now ≡ 4 * size }
    requires n_bound { from + n ≤ size }
    ensures { result ≡ ahead_of (has_tsn tsn) (take n (drop from (rows_of size table.now))) }
{
    let tsns = size + from;
    table[tsns..tsns + n]
        .iter()
        .position(|held| *held == tsn)
        .unwrap_or(n)
}
