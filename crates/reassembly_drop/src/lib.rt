// Incomplete ordered sets up to an SSN, dropped.
#![tactic(auto)]

ghost use Rattle.std.specs.Prelude.{◌≡◌, false, ◌+◌, ◌*◌, ◌≤◌, ◌<◌, map, length, take, drop};
ghost use Rattle.table.specs.Rows.{rows_of};
ghost use Rattle.fragments.specs.Frag.{bare};
ghost use Rattle.set_reach.specs.Kept.{stays, dropped};
ghost use Rattle.reassembly_state.specs.Limits.{frags_most};
ghost use Rattle.reassembly_state.specs.Model.{with_ordered};
ghost use Rattle.reassembly_state.specs.State.{state_of, unsound, view, lay};

use reassembly_state::{Counts, FRAGMENTS};

// Whether the set of k rows at an index goes: it is incomplete and at or before an SSN; where a cumulative point bounds the skip, that reaches it.
fn passed_over(table: &[u32], at: usize, k: usize, last_ssn: u16, bounded: bool, tsn: u32) -> bool
    requires table_len { length table.now ≡ 4 * frags_most }
    requires k_bound { at + k ≤ frags_most }
    requires k_nonzero { 0 < k }
    ensures { result ≡ dropped last_ssn bounded tsn (map bare (take k (drop at (rows_of frags_most table.now)))) }
{
    let first = table::row_at(table, FRAGMENTS, at);
    if !serial_ssns::sna16lte((first.id % 65536) as u16, last_ssn) {
        return false;
    }
    if fragment_sets::is_complete(table, FRAGMENTS, at, k) {
        return false;
    }
    if !bounded {
        return true;
    }
    set_reach::is_missing_tsn_at_or_before(table, FRAGMENTS, at, k, tsn)
}

// Drops these sets: those that stay move down, one by one.
pub fn drop_sets(
    queue: &mut Counts,
    table: &mut [u32],
    pool: &mut [u8],
    last_ssn: u16,
    bounded: bool,
    tsn: u32,
)
    requires table_len { length table.old ≡ 4 * frags_most }
    requires pool_value { unsound (state_of queue.old table.old pool.old) ≡ false }
    ensures { state_of queue.new table.new pool.new ≡ lay (with_ordered (view (state_of queue.old table.old pool.old)) (stays (dropped last_ssn bounded tsn) (view (state_of queue.old table.old pool.old)).ordered)) (state_of queue.old table.old pool.old) }
{
    let from = queue.finished + queue.unordered;
    let held = from + queue.ordered;
    let mut at = from;
    let mut off = fragments::sum_long(table, FRAGMENTS, 0, from);
    let mut kept = at;
    let mut bytes = off;
    // From set to set: how far a turn goes, k rows, no range can say, and an iterator of sets would be no plainer.
    while at < held {
        let first = at;
        let place = off;
        let k = set_reach::set_at(table, FRAGMENTS, first, held - first);
        let size = fragments::sum_long(table, FRAGMENTS, first, k);
        at += k;
        off += size;
        if !passed_over(table, first, k, last_ssn, bounded, tsn) {
            fragments::move_down(table, FRAGMENTS, pool, kept, first, k, bytes, place, off);
            kept += k;
            bytes += size;
        }
    }
    queue.ordered = kept - from;
    queue.n_bytes = bytes;
}
