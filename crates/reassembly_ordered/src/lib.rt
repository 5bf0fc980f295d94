// An ordered chunk of the queue's own stream, pushed into a sound queue.
#![tactic(auto)]

ghost use Rattle.std.specs.Prelude.{◌≡◌, false, ◌+◌, ◌*◌, ◌≤◌, ◌<◌, length};
ghost use Rattle.reassembly_state.specs.Limits.{frags_most, bytes_most};
ghost use Rattle.wire_model.specs.Refusal.{none, says};
ghost use Rattle.refusal.specs.Told.{flag_told};
ghost use Rattle.reassembly_state.specs.Model.{keep_ordered, push_ordered};
ghost use Rattle.reassembly_state.specs.State.{state_of, unsound, count, view, after, laid, fragment_of};
ghost use Rattle.reassembly_state.specs.Rows.{set_at, set_run, fits_if};

use data_fields::ChunkPayloadData;
use reassembly_parts::record;
use reassembly_state::{Counts, FRAGMENTS};
use refusal::Refusal;

// The first fragment of a set, which goes to its place by SSN; whether it is a whole message.
fn new_set(
    queue: &mut Counts,
    table: &mut [u32],
    pool: &mut [u8],
    chunk: ChunkPayloadData,
    user_data: &[u8],
) -> bool
    requires table_len { length table.old ≡ 4 * frags_most }
    requires pool_value { unsound (state_of queue.old table.old pool.old) ≡ false }
    requires queue_bound { count queue.old < frags_most }
    requires user_data_bound { queue.old.n_bytes + length user_data.now ≤ bytes_most }
    requires stream_sequence_number_value { set_run (state_of queue.old table.old pool.old) chunk.stream_sequence_number ≡ 0 }
    ensures { after (says none result) (state_of queue.new table.new pool.new) ≡ laid (state_of queue.old table.old pool.old) (keep_ordered (view (state_of queue.old table.old pool.old)) (fragment_of chunk user_data.now)) }
{
    let more = user_data.len();
    let row = record::row_of(chunk, more);
    let ssn = chunk.stream_sequence_number;
    let from = queue.finished + queue.unordered;
    let place = from + fragment_sets::place_ssn(table, FRAGMENTS, from, queue.ordered, ssn);
    let held = queue.finished + (queue.unordered + queue.ordered);
    fragment_put::put_fragment(
        table,
        FRAGMENTS,
        held,
        pool,
        queue.n_bytes,
        place,
        row,
        user_data,
    );
    queue.ordered += 1;
    queue.n_bytes += more;
    chunk.beginning_fragment & chunk.ending_fragment
}

// One more fragment of the set of run rows at index at, which goes to its place by TSN and takes the set's payload identifier over; whether that completes the set.
fn join_set(
    queue: &mut Counts,
    table: &mut [u32],
    pool: &mut [u8],
    chunk: ChunkPayloadData,
    user_data: &[u8],
    at: usize,
    run: usize,
) -> bool
    requires table_len { length table.old ≡ 4 * frags_most }
    requires pool_value { unsound (state_of queue.old table.old pool.old) ≡ false }
    requires queue_bound { count queue.old < frags_most }
    requires user_data_bound { queue.old.n_bytes + length user_data.now ≤ bytes_most }
    requires at_value { at ≡ set_at (state_of queue.old table.old pool.old) chunk.stream_sequence_number }
    requires run_value { run ≡ set_run (state_of queue.old table.old pool.old) chunk.stream_sequence_number }
    requires run_nonzero { 0 < run }
    ensures { after (says none result) (state_of queue.new table.new pool.new) ≡ laid (state_of queue.old table.old pool.old) (keep_ordered (view (state_of queue.old table.old pool.old)) (fragment_of chunk user_data.now)) }
{
    let more = user_data.len();
    let mut row = record::row_of(chunk, more);
    let first = table::row_at(table, FRAGMENTS, at);
    row.ppi = first.ppi;
    let place = at + table_places::walk_back(table, FRAGMENTS, at, run, row.tsn);
    let held = queue.finished + (queue.unordered + queue.ordered);
    fragment_put::put_fragment(
        table,
        FRAGMENTS,
        held,
        pool,
        queue.n_bytes,
        place,
        row,
        user_data,
    );
    queue.ordered += 1;
    queue.n_bytes += more;
    fragment_sets::is_complete(table, FRAGMENTS, at, run + 1)
}

// Stores the fragment in its set of run rows at index at, or in a new one.
pub fn keep(
    queue: &mut Counts,
    table: &mut [u32],
    pool: &mut [u8],
    chunk: ChunkPayloadData,
    user_data: &[u8],
    at: usize,
    run: usize,
) -> bool
    requires table_len { length table.old ≡ 4 * frags_most }
    requires pool_value { unsound (state_of queue.old table.old pool.old) ≡ false }
    requires queue_bound { count queue.old < frags_most }
    requires user_data_bound { queue.old.n_bytes + length user_data.now ≤ bytes_most }
    requires at_value { at ≡ set_at (state_of queue.old table.old pool.old) chunk.stream_sequence_number }
    requires run_value { run ≡ set_run (state_of queue.old table.old pool.old) chunk.stream_sequence_number }
    ensures { after (says none result) (state_of queue.new table.new pool.new) ≡ laid (state_of queue.old table.old pool.old) (keep_ordered (view (state_of queue.old table.old pool.old)) (fragment_of chunk user_data.now)) }
{
    if run == 0 {
        return new_set(queue, table, pool, chunk, user_data);
    }
    join_set(queue, table, pool, chunk, user_data, at, run)
}

// Asks, and nothing is changed ahead of storing.
pub fn push(
    queue: &mut Counts,
    table: &mut [u32],
    pool: &mut [u8],
    chunk: ChunkPayloadData,
    user_data: &[u8],
    room: bool,
) -> Result<bool, Refusal>
    requires table_len { length table.old ≡ 4 * frags_most }
    requires pool_value { unsound (state_of queue.old table.old pool.old) ≡ false }
    requires fits_if { fits_if room queue.old (length user_data.now) }
    ensures { after (flag_told result) (state_of queue.new table.new pool.new) ≡ laid (state_of queue.old table.old pool.old) (push_ordered room (view (state_of queue.old table.old pool.old)) (fragment_of chunk user_data.now)) }
{
    let asked = reassembly_ask::ask(*queue, table, chunk, user_data.len(), room);
    if !asked.keep? {
        return Ok(false);
    }
    let set = asked.set;
    Ok(keep(queue, table, pool, chunk, user_data, set.at, set.run))
}
