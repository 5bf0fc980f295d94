// Taking the message that is next.
#![tactic(auto)]

ghost use Rattle.std.specs.Prelude.{◌≡◌, false, ◌*◌, length};
ghost use Rattle.reassembly_state.specs.Limits.{frags_most};
ghost use Rattle.reassembly_state.specs.Model.{taken};
ghost use Rattle.reassembly_state.specs.State.{state_of, unsound, view, reads, read, lay_taken};
ghost use Rattle.reassembly_state.specs.Answers.{took_told};

use chunks::Chunks;
use reassembly_state::{Counts, FRAGMENTS, WORDS};
use refusal::Refusal;

// Takes the message in turn to the front of the lent buffer.
pub fn take(
    queue: &mut Counts,
    table: &mut [u32],
    pool: &mut [u8],
    buffer: &mut [u8],
) -> Result<Option<Chunks>, Refusal>
    requires table_len { length table.old ≡ 4 * frags_most }
    requires pool_value { unsound (state_of queue.old table.old pool.old) ≡ false }
    ensures { reads (took_told result) (state_of queue.new table.new pool.new) buffer.new ≡ lay_taken (state_of queue.old table.old pool.old) (taken (view (state_of queue.old table.old pool.old)) buffer.old) }
{
    let turn = reassembly_turn::in_turn(*queue, table);
    let from = turn.from;
    let k = turn.to - from;
    if k == 0 {
        return Ok(None);
    }
    let size = fragments::sum_long(table, FRAGMENTS, from, k);
    if buffer.len() < size {
        return Err(Refusal::ShortOutput);
    }
    let off = fragments::sum_long(table, FRAGMENTS, 0, from);
    let held = queue.finished + (queue.unordered + queue.ordered);
    let bytes = queue.n_bytes;
    let ordered = queue.finished == 0;
    let hand = reassembly_hand::take_run(
        table, pool, buffer, held, bytes, from, k, off, size, ordered,
    );
    reassembly_turn::without(queue, k, size, hand.ssn);
    Ok(Some(hand))
}

// Takes the oldest finished unordered message, else the first ordered set if it is complete and not after the expected one, to the front
// of the lent buffer; 10 where that is too short.
pub fn read(
    counts: &mut Counts,
    table: &mut [u32; WORDS],
    pool: &mut [u8],
    buffer: &mut [u8],
) -> Result<Option<Chunks>, Refusal>
    ensures { reads (took_told result) (state_of counts.new table.new pool.new) buffer.new ≡ read (state_of counts.old table.old pool.old) buffer.old }
{
    if counts.unsound(table, pool) {
        return Err(Refusal::Unsound);
    }
    take(counts, table, pool, buffer)
}
