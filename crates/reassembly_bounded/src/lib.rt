// An ordered skip held over a stream reset: it drops what the cumulative point reaches, and carries the expected SSN no further than that.
#![tactic(auto)]

ghost use Rattle.std.specs.Prelude.{◌≡◌, false, ◌*◌, length};
ghost use Rattle.reassembly_state.specs.Limits.{frags_most};
ghost use Rattle.reassembly_state.specs.Answers.{done_told};
ghost use Rattle.reassembly_state.specs.State.{state_of, unsound, view, lay, after};
ghost use Rattle.set_reach.specs.Bounded.{skip_bounded, forward_bounded};

use reassembly_state::{Counts, WORDS};
use refusal::Refusal;

// Of a sound queue drops incomplete sets at or before an SSN that a cumulative point reaches, and expects the first set that it does not reach, or the SSN after
// the last, where that is later than what is expected.
pub fn skip_bounded(
    queue: &mut Counts,
    table: &mut [u32],
    pool: &mut [u8],
    last_ssn: u16,
    new_cumulative_tsn: u32,
)
    requires table_len { length table.old ≡ 4 * frags_most }
    requires pool_value { unsound (state_of queue.old table.old pool.old) ≡ false }
    ensures { state_of queue.new table.new pool.new ≡ lay (skip_bounded (view (state_of queue.old table.old pool.old)) last_ssn new_cumulative_tsn) (state_of queue.old table.old pool.old) }
{
    let from = queue.finished + queue.unordered;
    let next = bounded_sets::limit(table, from, queue.ordered, last_ssn, new_cumulative_tsn);
    reassembly_drop::drop_sets(queue, table, pool, last_ssn, true, new_cumulative_tsn);
    if serial_ssns::sna16lt(queue.next_ssn, next) {
        queue.next_ssn = next;
    }
}

// Drops incomplete sets at or before an SSN that a cumulative point reaches, and expects the first set that it does not reach, or the SSN after
// the last, where that is later than what is expected.
pub fn forward_tsn_for_ordered_bounded(
    counts: &mut Counts,
    table: &mut [u32; WORDS],
    pool: &mut [u8],
    last_ssn: u16,
    new_cumulative_tsn: u32,
) -> Result<(), Refusal>
    ensures { after (done_told result) (state_of counts.new table.new pool.new) ≡ forward_bounded (state_of counts.old table.old pool.old) last_ssn new_cumulative_tsn }
{
    if counts.unsound(table, pool) {
        return Err(Refusal::Unsound);
    }
    skip_bounded(counts, table, pool, last_ssn, new_cumulative_tsn);
    Ok(())
}
