// An unordered chunk of the queue's own stream, pushed into a sound queue.
#![tactic(auto)]

ghost use Rattle.std.specs.Prelude.{◌≡◌, false, ◌+◌, ◌*◌, ◌≤◌, ltb, length, take};
ghost use Rattle.table.specs.Rows.{rows_of, total};
ghost use Rattle.fragments.specs.Frag.{long_length};
ghost use Rattle.reassembly_state.specs.Limits.{frags_most};
ghost use Rattle.refusal.specs.Told.{flag_told};
ghost use Rattle.reassembly_state.specs.Model.{push_unordered};
ghost use Rattle.reassembly_state.specs.State.{state_of, unsound, count, view, after, laid, fragment_of};
ghost use Rattle.reassembly_state.specs.Rows.{fits_if, neighbours};

use data_fields::ChunkPayloadData;
use reassembly_parts::room;
use reassembly_state::{Counts, FRAGMENTS};
use refusal::Refusal;

// How many bytes the message that an unordered chunk belongs to has besides its own.
fn reach(queue: Counts, table: &[u32], chunk: ChunkPayloadData) -> usize
    requires table_len { length table.now ≡ 4 * frags_most }
    requires queue_bound { count queue ≤ frags_most }
    ensures { result ≡ neighbours queue (rows_of frags_most table.now) chunk }
{
    let from = queue.finished;
    let loose = queue.unordered;
    if chunk.beginning_fragment {
        if chunk.ending_fragment {
            return 0;
        }
        return loose_fragments::run_up(table, FRAGMENTS, from, loose, chunk.tsn);
    }
    let down = loose_fragments::run_down(table, FRAGMENTS, from, loose, chunk.tsn);
    if chunk.ending_fragment {
        return down;
    }
    let up = loose_fragments::run_up(table, FRAGMENTS, from, loose, chunk.tsn);
    down + up
}

// Whether the message that an unordered chunk belongs to is above the maximum with so many bytes more. Where all that is held is not, it is not.
fn too_large(queue: Counts, table: &[u32], chunk: ChunkPayloadData, more: usize) -> bool
    requires table_len { length table.now ≡ 4 * frags_most }
    requires queue_bound { count queue ≤ frags_most }
    requires table_value { total long_length (take (count queue) (rows_of frags_most table.now)) ≡ queue.n_bytes }
    ensures { result ≡ ltb queue.max_message_size (neighbours queue (rows_of frags_most table.now) chunk + more) }
{
    if !room::above(queue.max_message_size, queue.n_bytes, more) {
        return false;
    }
    let bytes = reach(queue, table, chunk);
    room::above(queue.max_message_size, bytes, more)
}

// Refusals and answers in document 01's order, and nothing changed ahead of storing; whether there is room the caller says.
pub fn push(
    queue: &mut Counts,
    table: &mut [u32],
    pool: &mut [u8],
    chunk: ChunkPayloadData,
    user_data: &[u8],
    room: bool,
) -> Result<bool, Refusal>
    requires table_len { length table.old ≡ 4 * frags_most }
    requires pool_value { unsound (state_of queue.old table.old pool.old) ≡ false }
    requires fits_if { fits_if room queue.old (length user_data.now) }
    ensures { after (flag_told result) (state_of queue.new table.new pool.new) ≡ laid (state_of queue.old table.old pool.old) (push_unordered room (view (state_of queue.old table.old pool.old)) (fragment_of chunk user_data.now)) }
{
    let more = user_data.len();
    if too_large(*queue, table, chunk, more) {
        return Err(Refusal::MessageTooLarge);
    }
    if table_search::has_tsn(table, FRAGMENTS, queue.finished, queue.unordered, chunk.tsn) {
        return Ok(false);
    }
    if !room {
        return Err(Refusal::NoRoom);
    }
    reassembly_loose::store_loose(queue, table, pool, chunk, user_data);
    Ok(reassembly_loose::settle(queue, table, pool))
}
