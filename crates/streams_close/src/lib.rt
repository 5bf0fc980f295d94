// What stands behind one of eight streams moves down to what is left of the stream.
#![tactic(auto)]

ghost use Rattle.std.specs.Prelude.{◌≡◌, ◌+◌, ◌-◌, ◌*◌, ◌≤◌, length, take};
ghost use Rattle.wire_model.specs.BigEndian.{over};
ghost use Rattle.moves_model.specs.Lists.{gone};
ghost use Rattle.table.specs.Rows.{rows_of};
ghost use Rattle.reassembly_state.specs.Limits.{frags_most};
ghost use Rattle.reassembly_state.specs.State.{count};

use reassembly_state::{Counts, FRAGMENTS};
use streams_counts::Sum;

// What stands behind a queue moves down to what is left of it. Nothing moves where nothing was dropped.
pub fn close_up(table: &mut [u32], pool: &mut [u8], queue: Counts, left: Counts, behind: Sum)
    requires table_len { length table.old ≡ 4 * frags_most }
    requires left_bound { count left ≤ count queue }
    requires n_bytes_bound { left.n_bytes ≤ queue.n_bytes }
    requires rows_bound { count queue + behind.rows ≤ frags_most }
    requires bytes_in_bounds { queue.n_bytes + behind.bytes ≤ length pool.old }
    ensures table_after { rows_of frags_most table.new ≡ over (rows_of frags_most table.old) (gone (count left) (count queue - count left) (take (count queue + behind.rows) (rows_of frags_most table.old))) }
    ensures pool_after { pool.new ≡ over pool.old (gone left.n_bytes (queue.n_bytes - left.n_bytes) (take (queue.n_bytes + behind.bytes) pool.old)) }
{
    let at = queue.finished + (queue.unordered + queue.ordered);
    let to = left.finished + (left.unordered + left.ordered);
    let off = queue.n_bytes;
    let place = left.n_bytes;
    if to == at {
        if place == off {
            return;
        }
    }
    let end = off + behind.bytes;
    fragments::move_down(table, FRAGMENTS, pool, to, at, behind.rows, place, off, end);
}
