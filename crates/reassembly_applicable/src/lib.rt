// How far an ordered skip that is held over a stream reset applies by now.
#![tactic(auto)]

ghost use Rattle.std.specs.Prelude.{◌≡◌, List, ℕ, ◌*◌, ◌≤◌, length};
ghost use Rattle.wire_model.specs.Refusal.{none, says};
ghost use Rattle.reassembly_state.specs.Limits.{frags_most};
ghost use Rattle.reassembly_state.specs.State.{state_of, count, view};
ghost use Rattle.set_reach.specs.Applicable.{found_in, applies, applicable};
ghost use Rattle.reassembly_applicable.specs.Answers.{ssn_found, applicable_told};

mod part;

use reassembly_state::{Counts, WORDS};
use refusal::Refusal;

// Of a queue's ordered sets: the last SSN, where the expected one is after it, where its set is the expected one or reached by the point, or where the
// lowest TSN held from it on is at or before the peer's last; else the highest SSN from the expected one on whose set is reached or begins at or
// before that TSN.
pub fn applies(
    counts: Counts,
    table: &[u32],
    last_ssn: u16,
    new_cumulative_tsn: u32,
    peer_last_tsn: u32,
) -> Option<u16>
    requires table_len { length table.now ≡ 4 * frags_most }
    requires counts_bound { count counts ≤ frags_most }
    ensures { (pool : List ℕ) → says none (ssn_found result) ≡ says none (found_in (applies (view (state_of counts table.now pool)) last_ssn new_cumulative_tsn peer_last_tsn)) }
{
    let expected = counts.next_ssn;
    if serial_ssns_after::sna16gt(expected, last_ssn) {
        return Some(last_ssn);
    }
    let from = counts.finished + counts.unordered;
    let n = counts.ordered;
    if bounded_sets::is_settled(table, from, n, expected, last_ssn, new_cumulative_tsn) {
        return Some(last_ssn);
    }
    if bounded_sets::is_resolved(table, from, n, last_ssn, peer_last_tsn) {
        return Some(last_ssn);
    }
    part::highest_part(
        table,
        from,
        n,
        expected,
        last_ssn,
        new_cumulative_tsn,
        peer_last_tsn,
    )
}

// How far a skip applies, of any queue.
pub fn applicable_forward_tsn_for_ordered_bounded(
    counts: Counts,
    table: &[u32; WORDS],
    pool: &[u8],
    last_ssn: u16,
    new_cumulative_tsn: u32,
    peer_last_tsn: u32,
) -> Result<Option<u16>, Refusal>
    ensures { applicable_told result ≡ applicable (state_of counts table.now pool.now) last_ssn new_cumulative_tsn peer_last_tsn }
{
    if counts.unsound(table, pool) {
        return Err(Refusal::Unsound);
    }
    Ok(applies(counts, table, last_ssn, new_cumulative_tsn, peer_last_tsn))
}
