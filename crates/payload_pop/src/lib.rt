// The first chunk, removed and given.
#![tactic(auto)]

ghost use Rattle.std.specs.Prelude.{◌≡◌};
ghost use Rattle.payload_model.specs.Queue.{queue_of, after, popped};
ghost use Rattle.payload_model.specs.Answers.{taken_told};

use payload_model::{Counts, Queued, TSNS, WORDS};
use refusal::Refusal;

// Removes and gives the first chunk, if its TSN is this one.
pub fn pop(
    counts: &mut Counts,
    table: &mut [u32; WORDS],
    tsn: u32,
) -> Result<Option<Queued>, Refusal>
    ensures { after (taken_told result) (queue_of counts.new table.new) ≡ popped (queue_of counts.old table.old) tsn }
{
    if payload_counts::unsound(*counts, table) {
        return Err(Refusal::Unsound);
    }
    let count = counts.count;
    if count == 0 {
        return Ok(None);
    }
    let row = table::row_at(table, TSNS, 0);
    if row.tsn != tsn {
        return Ok(None);
    }
    table_moves::close_rows(table, TSNS, count, 0, 1);
    counts.count = count - 1;
    counts.n_bytes -= (row.head % 65536) as usize;
    Ok(Some(payload_record::chunk_of(row)))
}
