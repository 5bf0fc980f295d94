// Skips of a sound queue: incomplete ordered sets up to an SSN, and loose unordered fragments up to a TSN, dropped.
#![tactic(auto)]

ghost use Rattle.std.specs.Prelude.{◌≡◌, false, ◌*◌, length};
ghost use Rattle.reassembly_state.specs.Limits.{frags_most};
ghost use Rattle.reassembly_state.specs.Model.{skip_ordered, skip_unordered};
ghost use Rattle.reassembly_state.specs.State.{state_of, unsound, view, lay};

use reassembly_state::{Counts, FRAGMENTS};

// Of a sound queue drops incomplete sets at or before an SSN, and expects the one after it.
pub fn skip_ordered(queue: &mut Counts, table: &mut [u32], pool: &mut [u8], last_ssn: u16)
    requires table_len { length table.old ≡ 4 * frags_most }
    requires pool_value { unsound (state_of queue.old table.old pool.old) ≡ false }
    ensures { state_of queue.new table.new pool.new ≡ lay (skip_ordered (view (state_of queue.old table.old pool.old)) last_ssn) (state_of queue.old table.old pool.old) }
{
    reassembly_drop::drop_sets(queue, table, pool, last_ssn, false, 0);
    if serial_ssns::sna16lte(queue.next_ssn, last_ssn) {
        queue.next_ssn = serial_steps::ssn_next(last_ssn);
    }
}

// Of a sound queue drops loose unordered fragments from the front up to the first one after a TSN.
pub fn skip_unordered(
    queue: &mut Counts,
    table: &mut [u32],
    pool: &mut [u8],
    new_cumulative_tsn: u32,
)
    requires table_len { length table.old ≡ 4 * frags_most }
    requires pool_value { unsound (state_of queue.old table.old pool.old) ≡ false }
    ensures { state_of queue.new table.new pool.new ≡ lay (skip_unordered (view (state_of queue.old table.old pool.old)) new_cumulative_tsn) (state_of queue.old table.old pool.old) }
{
    let count = queue.finished + (queue.unordered + queue.ordered);
    let at = queue.finished;
    let k = loose_fragments::find_after(table, FRAGMENTS, at, queue.unordered, new_cumulative_tsn);
    let bytes = fragment_close::remove_fragments(
        table,
        FRAGMENTS,
        count,
        pool,
        queue.n_bytes,
        at,
        k,
    );
    queue.unordered -= k;
    queue.n_bytes -= bytes;
}
