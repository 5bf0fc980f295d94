// What becomes of a sent chunk: acknowledged, to be sent again.
#![tactic(auto)]

ghost use Rattle.std.specs.Prelude.{◌≡◌, List, ℕ};
ghost use Rattle.refusal.specs.Told.{count_told};
ghost use Rattle.payload_model.specs.Answers.{done_told};
ghost use Rattle.inflight_model.specs.Queue.{queue_of, after, marked_acked, marked_all};

use inflight_model::Counts;
use payload_model::{TSNS, WORDS};
use refusal::Refusal;

// Acknowledges the chunk with this TSN, and releases its bytes: as many as it still held; 0 where none is held with this TSN.
pub fn mark_as_acked(
    counts: &mut Counts,
    table: &mut [u32; WORDS],
    tsn: u32,
) -> Result<usize, Refusal>
    ensures { (ms : List ℕ) → after (count_told result) (queue_of counts.new table.new ms) ≡ marked_acked (queue_of counts.old table.old ms) tsn }
{
    if inflight_counts::unsound(*counts, table) {
        return Err(Refusal::Unsound);
    }
    let count = counts.count;
    let at = table_search::find_tsn(table, TSNS, 0, count, tsn);
    if count <= at {
        return Ok(0);
    }
    let mut row = table::row_at(table, TSNS, at);
    let size = (row.head % 65536) as usize;
    row.head = inflight_head::acked_head(row.head);
    table_put::set_row(table, TSNS, at, row);
    counts.n_bytes -= size;
    Ok(size)
}

// Marks every chunk to be sent again that is neither acknowledged nor abandoned. The counts stay as they are.
pub fn mark_all_to_retransmit(counts: Counts, table: &mut [u32; WORDS]) -> Result<(), Refusal>
    ensures { (ms : List ℕ) → after (done_told result) (queue_of counts table.new ms) ≡ marked_all (queue_of counts table.old ms) }
{
    if inflight_counts::unsound(counts, table) {
        return Err(Refusal::Unsound);
    }
    inflight_heads::mark_again(table, counts.count);
    Ok(())
}
