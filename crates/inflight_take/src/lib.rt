// What is dropped and looked at.
#![tactic(auto)]

ghost use Rattle.std.specs.Prelude.{◌≡◌};
ghost use Rattle.payload_model.specs.Answers.{done_told};
ghost use Rattle.inflight_model.specs.Queue.{queue_of, after, popped_up_to, got};
ghost use Rattle.inflight_model.specs.Answers.{taken_told};

use inflight_model::{Counts, Sent};
use payload_model::{TSNS, WORDS};
use refusal::Refusal;

// Drops every TSN at or before this one.
pub fn pop_up_to(
    counts: &mut Counts,
    table: &mut [u32; WORDS],
    messages: &mut [u64; TSNS],
    tsn: u32,
) -> Result<(), Refusal>
    ensures { after (done_told result) (queue_of counts.new table.new messages.new) ≡ popped_up_to (queue_of counts.old table.old messages.old) tsn }
{
    if inflight_counts::unsound(*counts, table) {
        return Err(Refusal::Unsound);
    }
    let count = counts.count;
    inflight_parts::keep_numbers(table, messages, count, tsn);
    let left = payload_parts::keep_after(table, count, tsn);
    counts.count = left;
    counts.n_bytes = table_sums::sum_short(table, TSNS, 0, left);
    Ok(())
}

// The chunk that is held with this TSN.
pub fn get(
    counts: Counts,
    table: &[u32; WORDS],
    messages: &[u64; TSNS],
    tsn: u32,
) -> Result<Option<Sent>, Refusal>
    ensures { taken_told result ≡ got (queue_of counts table.now messages.now) tsn }
{
    if inflight_counts::unsound(counts, table) {
        return Err(Refusal::Unsound);
    }
    let count = counts.count;
    let at = table_search::find_tsn(table, TSNS, 0, count, tsn);
    if count <= at {
        return Ok(None);
    }
    let message = messages[at];
    let row = table::row_at(table, TSNS, at);
    Ok(Some(inflight_parts::sent_of(row, message)))
}
