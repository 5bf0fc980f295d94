// What is dropped or handed out all at once: TSNs up to one, and the log of duplicates.
#![tactic(auto)]

ghost use Rattle.std.specs.Prelude.{◌≡◌};
ghost use Rattle.payload_model.specs.Queue.{queue_of, after, popped_up_to, popped_duplicates};
ghost use Rattle.payload_model.specs.Answers.{done_told, handed_told};

use payload_model::{Counts, Duplicates, LOG, TSNS, WORDS};
use refusal::Refusal;

// Drops every TSN at or before this one.
pub fn pop_up_to(counts: &mut Counts, table: &mut [u32; WORDS], tsn: u32) -> Result<(), Refusal>
    ensures { after (done_told result) (queue_of counts.new table.new) ≡ popped_up_to (queue_of counts.old table.old) tsn }
{
    if payload_counts::unsound(*counts, table) {
        return Err(Refusal::Unsound);
    }
    let left = payload_parts::keep_after(table, counts.count, tsn);
    counts.count = left;
    counts.n_bytes = table_sums::sum_short(table, TSNS, 0, left);
    Ok(())
}

// Hands out the log of duplicates, and empties it.
pub fn pop_duplicates(counts: &mut Counts, table: &[u32; WORDS]) -> Result<Duplicates, Refusal>
    ensures { after (handed_told result) (queue_of counts.new table.now) ≡ popped_duplicates (queue_of counts.old table.now) }
{
    if payload_counts::unsound(*counts, table) {
        return Err(Refusal::Unsound);
    }
    let count = counts.dups;
    let tsns = payload_parts::handed(counts.dup_tsn, count);
    counts.dups = 0;
    counts.dup_tsn = [0u32; LOG];
    Ok(Duplicates { count, tsns })
}
