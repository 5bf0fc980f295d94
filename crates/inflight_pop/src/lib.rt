// What is given: the first chunk.
#![tactic(auto)]

ghost use Rattle.std.specs.Prelude.{◌≡◌};
ghost use Rattle.inflight_model.specs.Queue.{queue_of, after, popped};
ghost use Rattle.inflight_model.specs.Answers.{taken_told};

use inflight_model::{Counts, Sent};
use payload_model::{TSNS, WORDS};
use refusal::Refusal;

// Removes and gives the first chunk, if its TSN is this one.
pub fn pop(
    counts: &mut Counts,
    table: &mut [u32; WORDS],
    messages: &mut [u64; TSNS],
    tsn: u32,
) -> Result<Option<Sent>, Refusal>
    ensures { after (taken_told result) (queue_of counts.new table.new messages.new) ≡ popped (queue_of counts.old table.old messages.old) tsn }
{
    if inflight_counts::unsound(*counts, table) {
        return Err(Refusal::Unsound);
    }
    let count = counts.count;
    if count == 0 {
        return Ok(None);
    }
    let row = table::row_at(table, TSNS, 0);
    if row.tsn != tsn {
        return Ok(None);
    }
    let sent = inflight_parts::sent_of(row, messages[0]);
    table_moves::close_rows(table, TSNS, count, 0, 1);
    moves::close(messages, count, 0, 1);
    counts.count = count - 1;
    counts.n_bytes -= (row.head % 65536) as usize;
    Ok(Some(sent))
}
