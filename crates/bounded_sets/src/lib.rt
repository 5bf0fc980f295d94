// Passes over the ordered rows that a skip held over a stream reset asks for: `from` and n are those of the ordered rows.
#![tactic(auto)]

ghost use Rattle.std.specs.Prelude.{◌≡◌, cond, map, ◌+◌, ◌*◌, ◌≤◌, ◌<◌, length, take, drop};
ghost use Rattle.serial_model.specs.Serial.{before};
ghost use Rattle.table.specs.Rows.{rows_of};
ghost use Rattle.fragments.specs.Frag.{bare};
ghost use Rattle.fragment_sets.specs.Sets.{sets};
ghost use Rattle.set_reach.specs.Kept.{some_set};
ghost use Rattle.reassembly_state.specs.Limits.{frags_most};
ghost use Rattle.set_reach.specs.Bounded.{held_back, limit};
ghost use Rattle.set_reach.specs.Applicable.{settles, resolved, ends_part};

use reassembly_state::FRAGMENTS;

// Whether the set of k rows at an index is at or before an SSN, and a cumulative point does not reach it.
fn holds_back(table: &[u32], at: usize, k: usize, last_ssn: u16, tsn: u32) -> bool
    requires table_len { length table.now ≡ 4 * frags_most }
    requires k_bound { at + k ≤ frags_most }
    requires k_nonzero { 0 < k }
    ensures { result ≡ held_back last_ssn tsn (map bare (take k (drop at (rows_of frags_most table.now)))) }
{
    let first = table::row_at(table, FRAGMENTS, at);
    if !serial_ssns::sna16lte((first.id % 65536) as u16, last_ssn) {
        return false;
    }
    !set_reach::is_reached(table, FRAGMENTS, at, k, tsn)
}

// How far the expected SSN may move: to the lowest SSN of the sets that hold it back, else to the one after the last.
pub fn limit(table: &[u32], from: usize, n: usize, last_ssn: u16, tsn: u32) -> u16
    requires table_len { length table.now ≡ 4 * frags_most }
    requires n_bound { from + n ≤ frags_most }
    ensures { result ≡ limit last_ssn tsn (map bare (take n (drop from (rows_of frags_most table.now)))) }
{
    let mut found = false;
    let mut lowest: u16 = 0;
    let mut i: usize = 0;
    // From set to set: how far a turn goes, k rows, no range can say, and an iterator of sets would be no plainer.
    while i < n {
        let at = from + i;
        let k = set_reach::set_at(table, FRAGMENTS, at, n - i);
        i += k;
        if holds_back(table, at, k, last_ssn, tsn) {
            let first = table::row_at(table, FRAGMENTS, at);
            lowest = kept_ssn::lower(found, lowest, (first.id % 65536) as u16);
            found = true;
        }
    }
    if found {
        return lowest;
    }
    serial_steps::ssn_next(last_ssn)
}

// Whether the set of k rows at an index is that of the last SSN, and is the expected one or reached by the point.
fn settles(table: &[u32], at: usize, k: usize, expected: u16, last_ssn: u16, tsn: u32) -> bool
    requires table_len { length table.now ≡ 4 * frags_most }
    requires k_bound { at + k ≤ frags_most }
    requires k_nonzero { 0 < k }
    ensures { result ≡ settles expected last_ssn tsn (map bare (take k (drop at (rows_of frags_most table.now)))) }
{
    let first = table::row_at(table, FRAGMENTS, at);
    let ssn = (first.id % 65536) as u16;
    if ssn != last_ssn {
        return false;
    }
    if ssn == expected {
        return true;
    }
    set_reach::is_reached(table, FRAGMENTS, at, k, tsn)
}

// Whether one of the sets is so.
pub fn is_settled(
    table: &[u32],
    from: usize,
    n: usize,
    expected: u16,
    last_ssn: u16,
    tsn: u32,
) -> bool
    requires table_len { length table.now ≡ 4 * frags_most }
    requires n_bound { from + n ≤ frags_most }
    ensures { result ≡ some_set (settles expected last_ssn tsn) (sets (map bare (take n (drop from (rows_of frags_most table.now))))) }
{
    let mut i: usize = 0;
    // From set to set: how far a turn goes, k rows, no range can say, and an iterator of sets would be no plainer.
    while i < n {
        let at = from + i;
        let k = set_reach::set_at(table, FRAGMENTS, at, n - i);
        i += k;
        if settles(table, at, k, expected, last_ssn, tsn) {
            return true;
        }
    }
    false
}

// The lower of two TSNs, the first of them on a tie; the second where there is no first.
fn lower(found: bool, kept: u32, tsn: u32) -> u32
    ensures { result ≡ cond found (cond (before 32 tsn kept) tsn kept) tsn }
{
    if !found {
        return tsn;
    }
    if serial_tsns::sna32lt(tsn, kept) {
        return tsn;
    }
    kept
}

// Whether the lowest TSN of the rows at or after an SSN is at or before one.
pub fn is_resolved(table: &[u32], from: usize, n: usize, last_ssn: u16, peer_last_tsn: u32) -> bool
    requires table_len { length table.now ≡ 4 * frags_most }
    requires n_bound { from + n ≤ frags_most }
    ensures { result ≡ resolved last_ssn peer_last_tsn (map bare (take n (drop from (rows_of frags_most table.now)))) }
{
    let mut found = false;
    let mut lowest: u32 = 0;
    for i in 0..n {
        let row = table::row_at(table, FRAGMENTS, from + i);
        if serial_ssns::sna16lte(last_ssn, (row.id % 65536) as u16) {
            lowest = lower(found, lowest, row.tsn);
            found = true;
        }
    }
    if !found {
        return false;
    }
    serial_tsns::sna32lte(lowest, peer_last_tsn)
}

// Whether the set of k rows at an index may end a part: from the expected SSN on, before the last, and reached by the point or begun by the peer's last TSN.
pub fn ends_part(
    table: &[u32],
    at: usize,
    k: usize,
    expected: u16,
    last_ssn: u16,
    tsn: u32,
    peer_last_tsn: u32,
) -> bool
    requires table_len { length table.now ≡ 4 * frags_most }
    requires k_bound { at + k ≤ frags_most }
    requires k_nonzero { 0 < k }
    ensures { result ≡ ends_part expected last_ssn tsn peer_last_tsn (map bare (take k (drop at (rows_of frags_most table.now)))) }
{
    let first = table::row_at(table, FRAGMENTS, at);
    let ssn = (first.id % 65536) as u16;
    if !serial_ssns::sna16lte(expected, ssn) {
        return false;
    }
    if !serial_ssns::sna16lt(ssn, last_ssn) {
        return false;
    }
    if set_reach::is_reached(table, FRAGMENTS, at, k, tsn) {
        return true;
    }
    serial_tsns::sna32lte(first.tsn, peer_last_tsn)
}
