// What is held: the last TSN, and whether a chunk of a stream is. These calls change nothing.
#![tactic(auto)]

ghost use Rattle.std.specs.Prelude.{◌≡◌};
ghost use Rattle.payload_model.specs.Queue.{queue_of, contains_stream, last_tsn};
ghost use Rattle.payload_model.specs.Answers.{last_told};
ghost use Rattle.refusal.specs.Told.{flag_told};

use payload_model::{Counts, TSNS, WORDS};
use refusal::Refusal;

// The TSN that stands last.
pub fn get_last_tsn_received(counts: Counts, table: &[u32; WORDS]) -> Result<Option<u32>, Refusal>
    ensures { last_told result ≡ last_tsn (queue_of counts table.now) }
{
    if payload_counts::unsound(counts, table) {
        return Err(Refusal::Unsound);
    }
    let count = counts.count;
    if count == 0 {
        return Ok(None);
    }
    let row = table::row_at(table, TSNS, count - 1);
    Ok(Some(row.tsn))
}

// Whether a chunk of this stream is held.
pub fn contains_stream(counts: Counts, table: &[u32; WORDS], stream: u16) -> Result<bool, Refusal>
    ensures { flag_told result ≡ contains_stream (queue_of counts table.now) stream }
{
    if payload_counts::unsound(counts, table) {
        return Err(Refusal::Unsound);
    }
    let count = counts.count;
    Ok(table_search::has_stream(table, TSNS, 0, count, stream))
}
