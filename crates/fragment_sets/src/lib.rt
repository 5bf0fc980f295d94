// Passes over the records of ordered sets: `from` and n are a segment of the table's rows.
#![tactic(auto)]

ghost use Rattle.std.specs.Prelude.{◌≡◌, map, ◌+◌, ◌*◌, ◌≤◌, length, take, drop};
ghost use Rattle.table.specs.Rows.{rows_of, some, ahead_of, up_to_last};
ghost use Rattle.fragments.specs.Frag.{bare, of_row, has_ssn, ssn_before, ends};
ghost use Rattle.fragment_sets.specs.Sets.{other_ssn, complete};

// How many rows a pass looks at together.
const BLOCK: usize = 16;

// How many rows stand ahead of the first with this SSN; n where none has it.
pub fn find_ssn(table: &[u32], size: usize, from: usize, n: usize, ssn: u16) -> usize
    requires table_len { length table.now ≡ 4 * size }
    requires n_bound { from + n ≤ size }
    ensures { result ≡ ahead_of (of_row (has_ssn ssn)) (take n (drop from (rows_of size table.now))) }
{
    let wanted = ssn as u32;
    let ids = table_columns::ids(table, size, from, n);
    ids.iter().position(|id| *id % 65536 == wanted).unwrap_or(n)
}

// Whether one of the n rows from one on has another SSN: a pass over all of them.
fn has_other(table: &[u32], size: usize, from: usize, n: usize, ssn: u16) -> bool
    requires table_len { length table.now ≡ 4 * size }
    requires n_bound { from + n ≤ size }
    ensures { result ≡ some (of_row (other_ssn ssn)) (take n (drop from (rows_of size table.now))) }
{
    let wanted = ssn as u32;
    let mut found = false;
    for id in table_columns::ids(table, size, from, n) {
        found = found | (*id % 65536 != wanted);
    }
    found
}

// How many rows stand ahead of the first with another SSN; n where all have this one.
pub fn run_ssn(table: &[u32], size: usize, from: usize, n: usize, ssn: u16) -> usize
    requires table_len { length table.now ≡ 4 * size }
    requires n_bound { from + n ≤ size }
    ensures { result ≡ ahead_of (of_row (other_ssn ssn)) (take n (drop from (rows_of size table.now))) }
{
    let wanted = ssn as u32;
    let ids = table_columns::ids(table, size, from, n);
    ids.iter().position(|id| *id % 65536 != wanted).unwrap_or(n)
}

// The same as run_ssn, for many rows: BLOCK of them in one pass, until one has another. Larger code than run_ssn's, and so slower for few rows.
pub fn pass_ssn(table: &[u32], size: usize, from: usize, n: usize, ssn: u16) -> usize
    requires table_len { length table.now ≡ 4 * size }
    requires n_bound { from + n ≤ size }
    ensures { result ≡ ahead_of (of_row (other_ssn ssn)) (take n (drop from (rows_of size table.now))) }
{
    let blocks = n / BLOCK;
    for block in 0..blocks {
        let i = block * BLOCK;
        if has_other(table, size, from + i, BLOCK, ssn) {
            return i + run_ssn(table, size, from + i, n - i, ssn);
        }
    }
    let i = blocks * BLOCK;
    i + run_ssn(table, size, from + i, n - i, ssn)
}

// The place of a new SSN: right after the last row whose SSN is before it, or first. From the end, since most come last.
pub fn place_ssn(table: &[u32], size: usize, from: usize, n: usize, ssn: u16) -> usize
    requires table_len { length table.now ≡ 4 * size }
    requires n_bound { from + n ≤ size }
    ensures { result ≡ up_to_last (of_row (ssn_before ssn)) (take n (drop from (rows_of size table.now))) }
{
    let ids = 2 * size + from;
    for at in (0..n).rev() {
        let held = (table[ids + at] % 65536) as u16;
        if serial_ssns::sna16lt(held, ssn) {
            return at + 1;
        }
    }
    0
}

// How many rows stand ahead of the first with mark E; n where none has it.
pub fn find_end(table: &[u32], size: usize, from: usize, n: usize) -> usize
    requires table_len { length table.now ≡ 4 * size }
    requires n_bound { from + n ≤ size }
    ensures { result ≡ ahead_of (of_row ends) (take n (drop from (rows_of size table.now))) }
{
    let heads = table_columns::heads(table, size, from, n);
    heads
        .iter()
        .position(|head| *head / 16777216 % 2 == 1)
        .unwrap_or(n)
}

// Whether the rows are a whole message: the first is B, the last is E, and TSNs rise by 1.
pub fn is_complete(table: &[u32], size: usize, from: usize, n: usize) -> bool
    requires table_len { length table.now ≡ 4 * size }
    requires n_bound { from + n ≤ size }
    ensures { result ≡ complete (map bare (take n (drop from (rows_of size table.now)))) }
{
    if n == 0 {
        return false;
    }
    if table[from] / 16777216 / 2 % 2 != 1 {
        return false;
    }
    let end = n - 1;
    if table[from + end] / 16777216 % 2 != 1 {
        return false;
    }
    let tsns = size + from;
    for i in 0..end {
        let next = serial_steps::tsn_next(table[tsns + i]);
        let behind = i + 1;
        if table[tsns + behind] != next {
            return false;
        }
    }
    true
}
