// The message that is next to be taken: where it stands, and the counts without it.
#![tactic(auto)]

ghost use Rattle.std.specs.Prelude.{◌≡◌, List, cond, ℕ, suc, ◌+◌, ◌*◌, ◌≤◌, min, ltb, length, take, drop};
ghost use Rattle.table.specs.Rows.{rows_of, ahead_of};
ghost use Rattle.fragments.specs.Frag.{ends, of_row};
ghost use Rattle.reassembly_state.specs.Limits.{frags_most};
ghost use Rattle.reassembly_state.specs.Model.{ready_set};
ghost use Rattle.reassembly_state.specs.State.{state_of, count, view};
ghost use Rattle.reassembly_state.specs.Rows.{InTurn, without_message};

use loose_fragments::Span;
use reassembly_state::{Counts, FRAGMENTS};

// How many rows the first ordered set has, if it can be taken; else 0.
pub fn ready(queue: Counts, table: &[u32]) -> usize
    requires table_len { length table.now ≡ 4 * frags_most }
    requires queue_bound { count queue ≤ frags_most }
    ensures { (result ≤ queue.ordered) × ((pool : List ℕ) → ready_set queue.next_ssn (view (state_of queue table.now pool)).ordered ≡ take result (view (state_of queue table.now pool)).ordered) }
{
    if queue.ordered == 0 {
        return 0;
    }
    let from = queue.finished + queue.unordered;
    let first = table::row_at(table, FRAGMENTS, from);
    let ssn = (first.id % 65536) as u16;
    if serial_ssns::sna16lt(queue.next_ssn, ssn) {
        return 0;
    }
    let run = fragment_sets::run_ssn(table, FRAGMENTS, from, queue.ordered, ssn);
    if fragment_sets::is_complete(table, FRAGMENTS, from, run) {
        return run;
    }
    0
}

// How many of the n rows from one on the oldest finished message has: through the first E; where there is none, all.
pub fn oldest_finished(table: &[u32], from: usize, n: usize) -> usize
    requires table_len { length table.now ≡ 4 * frags_most }
    requires n_bound { from + n ≤ frags_most }
    ensures { result ≡ min (suc (ahead_of (of_row ends) (take n (drop from (rows_of frags_most table.now))))) n }
{
    let end = fragment_sets::find_end(table, FRAGMENTS, from, n) + 1;
    if end <= n {
        return end;
    }
    n
}

// Where it stands among the held fragments; an empty run where there is none.
pub fn in_turn(queue: Counts, table: &[u32]) -> Span
    requires table_len { length table.now ≡ 4 * frags_most }
    requires queue_bound { count queue ≤ frags_most }
    ensures { (pool : List ℕ) → InTurn (state_of queue table.now pool) result }
{
    if 0 < queue.finished {
        let to = oldest_finished(table, 0, queue.finished);
        return Span { from: 0, to };
    }
    let from = queue.unordered;
    let run = ready(queue, table);
    Span {
        from,
        to: from + run,
    }
}

// Without a message of k fragments and so many bytes: the oldest finished one, else the first ordered set, with its SSN.
pub fn without(queue: &mut Counts, k: usize, bytes: usize, ssn: u16)
    requires bytes_bound { bytes ≤ queue.old.n_bytes }
    requires k_bound { k ≤ cond (ltb 0 queue.old.finished) queue.old.finished queue.old.ordered }
    ensures { queue.new ≡ without_message queue.old k bytes ssn }
{
    queue.n_bytes -= bytes;
    if 0 < queue.finished {
        queue.finished -= k;
        return;
    }
    queue.ordered -= k;
    if ssn == queue.next_ssn {
        queue.next_ssn = serial_steps::ssn_next(ssn);
    }
}
