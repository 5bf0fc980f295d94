// The place of a new TSN among a table's rows. Each passes over the n rows from one on.
#![tactic(auto)]

ghost use Rattle.std.specs.Prelude.{◌≡◌, ◌+◌, ◌*◌, ◌≤◌, length, take, drop};
ghost use Rattle.table.specs.Rows.{rows_of, some, up_to_last, tsn_before};

// How many rows a pass from the end looks at together.
const BLOCK: usize = 16;

// Whether one of the n rows from one on is before a TSN: a pass over all of them.
fn has_before(table: &[u32], size: usize, from: usize, n: usize, tsn: u32) -> bool
    requires table_len { length table.now ≡ 4 * size }
    requires n_bound { from + n ≤ size }
    ensures { result ≡ some (tsn_before tsn) (take n (drop from (rows_of size table.now))) }
{
    let tsns = size + from;
    let mut found = false;
    for held in &table[tsns..tsns + n] {
        let earlier = serial_tsns::sna32lt(*held, tsn);
        found = found | earlier;
    }
    found
}

// The place of a new TSN among the n rows from one on: right after the last one that is before it, or first. From the end, since most come last.
pub fn walk_back(table: &[u32], size: usize, from: usize, n: usize, tsn: u32) -> usize
    requires table_len { length table.now ≡ 4 * size }
    requires n_bound { from + n ≤ size }
    ensures { result ≡ up_to_last (tsn_before tsn) (take n (drop from (rows_of size table.now))) }
{
    let tsns = size + from;
    for at in (0..n).rev() {
        if serial_tsns::sna32lt(table[tsns + at], tsn) {
            return at + 1;
        }
    }
    0
}

// The same place as walk_back's, for many rows: the last one is looked at first, and then BLOCK rows in one pass, from the end on, until one of
// them is before it. Larger code than walk_back's, and so slower for few rows.
pub fn place_tsn(table: &[u32], size: usize, from: usize, n: usize, tsn: u32) -> usize
    requires table_len { length table.now ≡ 4 * size }
    requires n_bound { from + n ≤ size }
    ensures { result ≡ up_to_last (tsn_before tsn) (take n (drop from (rows_of size table.now))) }
{
    if 0 < n {
        let last = n - 1;
        if serial_tsns::sna32lt(table[size + from + last], tsn) {
            return n;
        }
    }
    let mut left = n;
    while BLOCK <= left {
        let at = left - BLOCK;
        if has_before(table, size, from + at, BLOCK, tsn) {
            return walk_back(table, size, from, left, tsn);
        }
        left = at;
    }
    walk_back(table, size, from, left, tsn)
}
