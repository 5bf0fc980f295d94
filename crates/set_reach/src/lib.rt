// Passes over the records of ordered sets, for skips: `from` and n are a segment of the table's rows.
#![tactic(auto)]

ghost use Rattle.std.specs.Prelude.{◌≡◌, map, ◌+◌, ◌*◌, ◌≤◌, ◌<◌, length, get_or, take, drop};
ghost use Rattle.table.specs.Rows.{blank, rows_of, ahead_of};
ghost use Rattle.fragments.specs.Frag.{bare, of_row, ssn_of};
ghost use Rattle.fragment_sets.specs.Sets.{other_ssn};
ghost use Rattle.set_reach.specs.Reach.{all_up_to, gap_up_to, missing_up_to, reached};

// How many rows the set that starts at an index has, among n rows.
pub fn set_at(table: &[u32], size: usize, at: usize, n: usize) -> usize
    requires table_len { length table.now ≡ 4 * size }
    requires n_bound { at + n ≤ size }
    requires n_nonzero { 0 < n }
    ensures { result ≡ ahead_of (of_row (other_ssn (ssn_of (bare (get_or (rows_of size table.now) at blank))))) (take n (drop at (rows_of size table.now))) }
{
    let first = table::row_at(table, size, at);
    fragment_sets::run_ssn(table, size, at, n, (first.id % 65536) as u16)
}

// Whether every TSN of the rows is at or before one.
fn all_up_to(table: &[u32], size: usize, from: usize, n: usize, tsn: u32) -> bool
    requires table_len { length table.now ≡ 4 * size }
    requires n_bound { from + n ≤ size }
    ensures { result ≡ all_up_to tsn (map bare (take n (drop from (rows_of size table.now)))) }
{
    let tsns = table_columns::tsns(table, size, from, n);
    tsns.iter().all(|held| serial_tsns::sna32lte(*held, tsn))
}

// Whether a TSN that is missing behind the first row is at or before one: in a gap, or behind a last row that is not E.
fn has_gap(table: &[u32], size: usize, from: usize, n: usize, tsn: u32) -> bool
    requires table_len { length table.now ≡ 4 * size }
    requires n_bound { from + n ≤ size }
    requires n_nonzero { 0 < n }
    ensures { result ≡ gap_up_to tsn (bare (get_or (rows_of size table.now) from blank)) (map bare (drop 1 (take n (drop from (rows_of size table.now))))) }
{
    let tsns = size + from;
    let end = n - 1;
    for i in 0..end {
        let next = serial_steps::tsn_next(table[tsns + i]);
        let behind = i + 1;
        if table[tsns + behind] != next {
            if serial_tsns::sna32lte(next, tsn) {
                return true;
            }
        }
    }
    if table[from + end] / 16777216 % 2 == 1 {
        return false;
    }
    serial_tsns::sna32lte(serial_steps::tsn_next(table[tsns + end]), tsn)
}

// Whether a TSN that the set lacks is at or before one.
pub fn is_missing_tsn_at_or_before(
    table: &[u32],
    size: usize,
    from: usize,
    n: usize,
    tsn: u32,
) -> bool
    requires table_len { length table.now ≡ 4 * size }
    requires n_bound { from + n ≤ size }
    requires n_nonzero { 0 < n }
    ensures { result ≡ missing_up_to tsn (map bare (take n (drop from (rows_of size table.now)))) }
{
    let first = table::row_at(table, size, from);
    if first.head / 16777216 / 2 % 2 == 1 {
        return has_gap(table, size, from, n, tsn);
    }
    if serial_tsns::sna32lte(serial_steps::tsn_offset(1, first.tsn), tsn) {
        return true;
    }
    has_gap(table, size, from, n, tsn)
}

// Whether a cumulative point reaches the set: a complete one with its last TSN, an incomplete one with a TSN that it lacks.
pub fn is_reached(table: &[u32], size: usize, from: usize, n: usize, tsn: u32) -> bool
    requires table_len { length table.now ≡ 4 * size }
    requires n_bound { from + n ≤ size }
    requires n_nonzero { 0 < n }
    ensures { result ≡ reached tsn (map bare (take n (drop from (rows_of size table.now)))) }
{
    if fragment_sets::is_complete(table, size, from, n) {
        return all_up_to(table, size, from, n, tsn);
    }
    is_missing_tsn_at_or_before(table, size, from, n, tsn)
}
