// What is held: a chunk by its TSN, and the gap report. These calls change nothing.
#![tactic(auto)]

ghost use Rattle.std.specs.Prelude.{◌≡◌};
ghost use Rattle.payload_model.specs.Queue.{queue_of, got};
ghost use Rattle.payload_model.specs.GapCall.{lists, gap_report};
ghost use Rattle.payload_model.specs.Answers.{taken_told};
ghost use Rattle.refusal.specs.Told.{count_told};

use payload_model::{Counts, Queued, TSNS, WORDS};
use refusal::Refusal;

// The chunk that is held with this TSN.
pub fn get(counts: Counts, table: &[u32; WORDS], tsn: u32) -> Result<Option<Queued>, Refusal>
    ensures { taken_told result ≡ got (queue_of counts table.now) tsn }
{
    if payload_counts::unsound(counts, table) {
        return Err(Refusal::Unsound);
    }
    let count = counts.count;
    let at = table_search::find_tsn(table, TSNS, 0, count, tsn);
    if count <= at {
        return Ok(None);
    }
    Ok(Some(payload_record::chunk_of(table::row_at(table, TSNS, at))))
}

// The gap report: starts and ends of its blocks go to the front of the lent lists, and their count is the answer; 10 where a list is too short.
pub fn get_gap_ack_blocks(
    counts: Counts,
    table: &[u32; WORDS],
    cumulative: u32,
    starts: &mut [u16],
    ends: &mut [u16],
) -> Result<usize, Refusal>
    ensures { lists (count_told result) starts.new ends.new ≡ gap_report (queue_of counts table.now) cumulative starts.old ends.old }
{
    if payload_counts::unsound(counts, table) {
        return Err(Refusal::Unsound);
    }
    let count = counts.count;
    gap_report::report(table, TSNS, count, cumulative, starts, ends)
}
