// The chunks of a message, abandoned.
#![tactic(auto)]

ghost use Rattle.std.specs.Prelude.{◌≡◌};
ghost use Rattle.refusal.specs.Told.{count_told};
ghost use Rattle.inflight_model.specs.Queue.{queue_of, after, abandoned};

use inflight_model::Counts;
use payload_model::{TSNS, WORDS};
use refusal::Refusal;

// Abandons every chunk of this message, and releases their bytes: as many as they still held.
pub fn abandon_message(
    counts: &mut Counts,
    table: &mut [u32; WORDS],
    messages: &[u64; TSNS],
    message: u64,
) -> Result<usize, Refusal>
    ensures { after (count_told result) (queue_of counts.new table.new messages.now) ≡ abandoned (queue_of counts.old table.old messages.now) message }
{
    if inflight_counts::unsound(*counts, table) {
        return Err(Refusal::Unsound);
    }
    let count = counts.count;
    inflight_heads::abandon(table, messages, count, message);
    let sum = table_sums::sum_short(table, TSNS, 0, count);
    let released = counts.n_bytes - sum;
    counts.n_bytes = sum;
    Ok(released)
}
