// A chunk that was sent comes into the in-flight queue.
#![tactic(auto)]

ghost use Rattle.std.specs.Prelude.{◌≡◌};
ghost use Rattle.payload_model.specs.Queue.{row_of};
ghost use Rattle.payload_model.specs.Answers.{done_told};
ghost use Rattle.inflight_model.specs.Queue.{queue_of, after, pushed_no_check};

use data_fields::ChunkPayloadData;
use inflight_model::Counts;
use payload_model::{TSNS, WORDS};
use refusal::Refusal;

// Stores the chunk by its TSN, without a mark, and the number of its message beside it; 18 where the TSN is held, 8 where no room is left.
pub fn push_no_check(
    counts: &mut Counts,
    table: &mut [u32; WORDS],
    messages: &mut [u64; TSNS],
    chunk: ChunkPayloadData,
    size: u16,
    message: u64,
) -> Result<(), Refusal>
    ensures { after (done_told result) (queue_of counts.new table.new messages.new) ≡ pushed_no_check (queue_of counts.old table.old messages.old) (row_of chunk size) message }
{
    if inflight_counts::unsound(*counts, table) {
        return Err(Refusal::Unsound);
    }
    let count = counts.count;
    let row = payload_record::row_of(chunk, size);
    let tsn = row.tsn;
    if table_search::has_tsn(table, TSNS, 0, count, tsn) {
        return Err(Refusal::HeldTsn);
    }
    if TSNS <= count {
        return Err(Refusal::NoRoom);
    }
    let at = table_places::place_tsn(table, TSNS, 0, count, tsn);
    table_put::put_row(table, TSNS, count, at, row);
    moves::put_one(messages, count, at, message);
    counts.count = count + 1;
    counts.n_bytes += size as usize;
    Ok(())
}
