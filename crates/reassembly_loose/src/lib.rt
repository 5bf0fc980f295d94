// A loose unordered fragment stored in a sound queue, and the scan for a whole message.
#![tactic(auto)]

ghost use Rattle.std.specs.Prelude.{◌≡◌, false, ◌+◌, ◌*◌, ◌≤◌, ◌<◌, length};
ghost use Rattle.reassembly_state.specs.Limits.{frags_most, bytes_most};
ghost use Rattle.wire_model.specs.Refusal.{none, says};
ghost use Rattle.reassembly_state.specs.State.{state_of, unsound, count, view, lay, after, laid, fragment_of};
ghost use Rattle.reassembly_state.specs.Rows.{stored_loose, settled};

use data_fields::ChunkPayloadData;
use reassembly_parts::record;
use reassembly_state::{Counts, FRAGMENTS};

// A loose fragment stored at its place by TSN.
pub fn store_loose(
    queue: &mut Counts,
    table: &mut [u32],
    pool: &mut [u8],
    chunk: ChunkPayloadData,
    user_data: &[u8],
)
    requires table_len { length table.old ≡ 4 * frags_most }
    requires pool_value { unsound (state_of queue.old table.old pool.old) ≡ false }
    requires queue_bound { count queue.old < frags_most }
    requires user_data_bound { queue.old.n_bytes + length user_data.now ≤ bytes_most }
    ensures { state_of queue.new table.new pool.new ≡ lay (stored_loose (view (state_of queue.old table.old pool.old)) (fragment_of chunk user_data.now)) (state_of queue.old table.old pool.old) }
{
    let more = user_data.len();
    let row = record::row_of(chunk, more);
    let from = queue.finished;
    let loose = queue.unordered;
    let held = from + (loose + queue.ordered);
    let place = from + table_places::walk_back(table, FRAGMENTS, from, loose, row.tsn);
    fragment_put::put_fragment(
        table,
        FRAGMENTS,
        held,
        pool,
        queue.n_bytes,
        place,
        row,
        user_data,
    );
    queue.unordered = loose + 1;
    queue.n_bytes += more;
}

// One scan: the first whole message goes to the finished ones; whether there is one.
pub fn settle(queue: &mut Counts, table: &mut [u32], pool: &mut [u8]) -> bool
    requires table_len { length table.old ≡ 4 * frags_most }
    requires pool_value { unsound (state_of queue.old table.old pool.old) ≡ false }
    ensures { after (says none result) (state_of queue.new table.new pool.new) ≡ laid (state_of queue.old table.old pool.old) (settled (view (state_of queue.old table.old pool.old))) }
{
    let from = queue.finished;
    let loose = queue.unordered;
    let whole = loose_fragments::scan(table, FRAGMENTS, from, loose);
    let start = whole.from;
    let end = whole.to;
    if start == end {
        return false;
    }
    fragments::move_fragments(
        table,
        FRAGMENTS,
        from + (loose + queue.ordered),
        pool,
        from,
        from + start,
        from + end,
    );
    let k = end - start;
    queue.finished = from + k;
    queue.unordered = loose - k;
    true
}
