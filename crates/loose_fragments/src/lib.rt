// Passes over the records of loose unordered fragments: `from` and n are a segment of the table's rows.
#![tactic(auto)]

ghost use Rattle.std.specs.Prelude.{◌≡◌, map, ◌+◌, ◌*◌, ◌/◌, ◌%◌, ◌≤◌, ◌<◌, eqb, length, take, drop};
ghost use Rattle.table.specs.Rows.{rows_of, ahead_of};
ghost use Rattle.fragments.specs.Frag.{bare, of_row, tsn_after};
ghost use Rattle.loose_fragments.specs.Loose.{run_down, run_up, starts_by, scanned};

use fragments::long_length;

// A run of rows, from one index up to another; an empty one where there is none.
#[derive(Clone, Copy)]
pub struct Span {
    pub from: usize,
    pub to: usize,
}

// How many rows stand ahead of the first that is after a TSN; n where none is.
pub fn find_after(table: &[u32], size: usize, from: usize, n: usize, tsn: u32) -> usize
    requires table_len { length table.now ≡ 4 * size }
    requires n_bound { from + n ≤ size }
    ensures { result ≡ ahead_of (of_row (tsn_after tsn)) (take n (drop from (rows_of size table.now))) }
{
    let tsns = table_columns::tsns(table, size, from, n);
    tsns.iter()
        .position(|held| serial_tsns::sna32lt(tsn, *held))
        .unwrap_or(n)
}

// The size of the run by TSN value that goes down from a TSN, through the first B.
pub fn run_down(table: &[u32], size: usize, from: usize, n: usize, tsn: u32) -> usize
    requires size_bound { size ≤ 65536 }
    requires table_len { length table.now ≡ 4 * size }
    requires n_bound { from + n ≤ size }
    ensures { result ≡ run_down tsn (map bare (take n (drop from (rows_of size table.now)))) }
{
    let mut sum: usize = 0;
    let mut want = serial_steps::tsn_offset(1, tsn);
    for _ in 0..n {
        let at = table_search::find_tsn(table, size, from, n, want);
        if n <= at {
            return sum;
        }
        let head = table[from + at];
        sum += long_length(head);
        if head / 16777216 / 2 % 2 == 1 {
            return sum;
        }
        want = serial_steps::tsn_offset(1, want);
    }
    sum
}

// The size of the run by TSN value that goes up from a TSN, through the first E.
pub fn run_up(table: &[u32], size: usize, from: usize, n: usize, tsn: u32) -> usize
    requires size_bound { size ≤ 65536 }
    requires table_len { length table.now ≡ 4 * size }
    requires n_bound { from + n ≤ size }
    ensures { result ≡ run_up tsn (map bare (take n (drop from (rows_of size table.now)))) }
{
    let mut sum: usize = 0;
    let mut want = serial_steps::tsn_next(tsn);
    for _ in 0..n {
        let at = table_search::find_tsn(table, size, from, n, want);
        if n <= at {
            return sum;
        }
        let head = table[from + at];
        sum += long_length(head);
        if head / 16777216 % 2 == 1 {
            return sum;
        }
        want = serial_steps::tsn_next(want);
    }
    sum
}

// The first whole message, one row after the other: each B starts afresh, a break in TSN forgets the start, the first E reached ends it.
fn scan_rows(table: &[u32], size: usize, from: usize, n: usize) -> Span
    requires table_len { length table.now ≡ 4 * size }
    requires n_bound { from + n ≤ size }
    ensures { result ≡ scanned (map bare (take n (drop from (rows_of size table.now)))) }
{
    let tsns = size + from;
    // A run that starts at i is none.
    let mut start: usize = 0;
    let mut want: u32 = 0;
    for i in 0..n {
        let flags = table[from + i] / 16777216;
        let tsn = table[tsns + i];
        start = starts(i, start, want, flags, tsn);
        let passed = i + 1;
        if flags % 2 == 1 {
            if start < passed {
                return Span {
                    from: start,
                    to: passed,
                };
            }
        }
        want = serial_steps::tsn_next(tsn);
    }
    Span { from: 0, to: 0 }
}

// The first whole message. Where B or E is missing there is none, and no row is walked.
pub fn scan(table: &[u32], size: usize, from: usize, n: usize) -> Span
    requires table_len { length table.now ≡ 4 * size }
    requires n_bound { from + n ≤ size }
    ensures { result ≡ scanned (map bare (take n (drop from (rows_of size table.now)))) }
{
    if !loose_marks::has_marks(table, size, from, n) {
        return Span { from: 0, to: 0 };
    }
    scan_rows(table, size, from, n)
}

// Where the run starts once the row at index i is passed.
fn starts(i: usize, start: usize, want: u32, flags: u32, tsn: u32) -> usize
    requires { i < 18446744073709551615 }
    ensures { result ≡ starts_by (eqb (flags / 2 % 2) 1) (eqb tsn want) i start }
{
    if flags / 2 % 2 == 1 {
        return i;
    }
    if i <= start {
        return i + 1;
    }
    if tsn == want {
        return start;
    }
    i + 1
}
