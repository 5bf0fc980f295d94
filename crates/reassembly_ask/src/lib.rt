// What a push of an ordered chunk is asked: its size, its SSN, its TSN, room.
#![tactic(auto)]

ghost use Rattle.std.specs.Prelude.{◌≡◌, false, List, ℕ, ◌+◌, ◌*◌, ◌≤◌, ltb, length, take, drop};
ghost use Rattle.table.specs.Rows.{rows_of, total};
ghost use Rattle.fragments.specs.Frag.{long_length};
ghost use Rattle.reassembly_state.specs.Limits.{frags_most};
ghost use Rattle.reassembly_state.specs.State.{state_of, unsound, count};
ghost use Rattle.reassembly_state.specs.Rows.{set_at, set_run};
ghost use Rattle.reassembly_ask.specs.Asks.{Asks};

use data_fields::ChunkPayloadData;
use reassembly_parts::room;
use reassembly_state::{Counts, FRAGMENTS};
use refusal::Refusal;

// Whether the set of run rows at index at is above the maximum with so many bytes more. Where all that is held is not, it is not.
fn too_large(queue: Counts, table: &[u32], at: usize, run: usize, more: usize) -> bool
    requires table_len { length table.now ≡ 4 * frags_most }
    requires queue_bound { count queue ≤ frags_most }
    requires run_bound { at + run ≤ count queue }
    requires table_value { total long_length (take (count queue) (rows_of frags_most table.now)) ≡ queue.n_bytes }
    ensures { result ≡ ltb queue.max_message_size (total long_length (take run (drop at (rows_of frags_most table.now))) + more) }
{
    if !room::above(queue.max_message_size, queue.n_bytes, more) {
        return false;
    }
    let size = fragments::sum_long(table, FRAGMENTS, at, run);
    room::above(queue.max_message_size, size, more)
}

// Where the set of a chunk stands, and how many rows it has, 0 where there is none.
#[derive(Clone, Copy)]
pub struct SetRows {
    pub at: usize,
    pub run: usize,
}

// Whether an ordered push is to be kept, or what it is refused; and where its set stands, whatever is answered.
#[derive(Clone, Copy)]
pub struct Asked {
    pub keep: Result<bool, Refusal>,
    pub set: SetRows,
}

// The questions of a push of so many bytes in document 01's order; whether there is room the caller says. Where it is kept, what it is told only `keep` can say;
// where nothing is kept, and it is not refused, it is told false.
pub fn ask(queue: Counts, table: &[u32], chunk: ChunkPayloadData, more: usize, room: bool) -> Asked
    requires table_len { length table.now ≡ 4 * frags_most }
    requires queue_bound { count queue ≤ frags_most }
    requires table_value { total long_length (take (count queue) (rows_of frags_most table.now)) ≡ queue.n_bytes }
    ensures at_value { (pool : List ℕ) → result.set.at ≡ set_at (state_of queue table.now pool) chunk.stream_sequence_number }
    ensures run_value { (pool : List ℕ) → result.set.run ≡ set_run (state_of queue table.now pool) chunk.stream_sequence_number }
    ensures asks { (pool : List ℕ) → unsound (state_of queue table.now pool) ≡ false → Asks (state_of queue table.now pool) room chunk more result.keep result.set }
{
    let ssn = chunk.stream_sequence_number;
    let from = queue.finished + queue.unordered;
    let ahead = fragment_sets::find_ssn(table, FRAGMENTS, from, queue.ordered, ssn);
    let at = from + ahead;
    let run = fragment_sets::pass_ssn(table, FRAGMENTS, at, queue.ordered - ahead, ssn);
    let set = SetRows { at, run };
    if too_large(queue, table, at, run, more) {
        return Asked {
            keep: Err(Refusal::MessageTooLarge),
            set,
        };
    }
    if serial_ssns::sna16lt(ssn, queue.next_ssn) {
        return Asked {
            keep: Ok(false),
            set,
        };
    }
    if table_search::has_tsn(table, FRAGMENTS, at, run, chunk.tsn) {
        return Asked {
            keep: Ok(false),
            set,
        };
    }
    if !room {
        return Asked {
            keep: Err(Refusal::NoRoom),
            set,
        };
    }
    Asked {
        keep: Ok(true),
        set,
    }
}
