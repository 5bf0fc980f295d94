// How much of a skip applies where not all of it does.
ghost use Rattle.std.specs.Prelude.{◌≡◌, map, ◌+◌, ◌*◌, ◌≤◌, length, take, drop};
ghost use Rattle.wire_model.specs.Refusal.{none, says};
ghost use Rattle.table.specs.Rows.{rows_of};
ghost use Rattle.fragments.specs.Frag.{bare};
ghost use Rattle.fragment_sets.specs.Sets.{sets};
ghost use Rattle.set_reach.specs.Kept.{ssns_of, highest};
ghost use Rattle.reassembly_state.specs.Limits.{frags_most};
ghost use Rattle.set_reach.specs.Applicable.{ends_part, found_in};
ghost use Rattle.reassembly_applicable.specs.Answers.{ssn_found};

use reassembly_state::FRAGMENTS;

// The highest SSN of the sets that may end a part.
pub fn highest_part(
    table: &[u32],
    from: usize,
    n: usize,
    expected: u16,
    last_ssn: u16,
    tsn: u32,
    peer_last_tsn: u32,
) -> Option<u16>
    requires table_len { length table.now ≡ 4 * frags_most }
    requires n_bound { from + n ≤ frags_most }
    ensures { says none (ssn_found result) ≡ says none (found_in (highest 16 (ssns_of (ends_part expected last_ssn tsn peer_last_tsn) (sets (map bare (take n (drop from (rows_of frags_most table.now)))))))) }
{
    let mut found = false;
    let mut highest: u16 = 0;
    let mut i: usize = 0;
    // From set to set: how far a turn goes, k rows, no range can say, and an iterator of sets would be no plainer.
    while i < n {
        let at = from + i;
        let k = set_reach::set_at(table, FRAGMENTS, at, n - i);
        i += k;
        if bounded_sets::ends_part(table, at, k, expected, last_ssn, tsn, peer_last_tsn) {
            let first = table::row_at(table, FRAGMENTS, at);
            highest = kept_ssn::higher(found, highest, (first.id % 65536) as u16);
            found = true;
        }
    }
    if found {
        return Some(highest);
    }
    None
}
