// What the TSN queue drops for a FORWARD TSN chunk (RFC 3758 section 3.6). A new cumulative TSN at or before the cumulative one changes nothing.
#![tactic(auto)]

ghost use Rattle.std.specs.Prelude.{◌≡◌};
ghost use Rattle.payload_model.specs.Queue as tsns;
ghost use Rattle.payload_model.specs.Answers as dropped;
ghost use Rattle.payload_queue.specs.Queue.{queue_of};
ghost use Rattle.forward_tsn_drops.specs.Drops.{applied_to_tsns};

use payload_queue::{PayloadQueue, WORDS};
use refusal::Refusal;

// Drops the TSNs up to the new point.
pub fn apply_to_tsns(
    queue: &mut PayloadQueue,
    table: &mut [u32; WORDS],
    cumulative_tsn: u32,
    new_cumulative_tsn: u32,
) -> Result<(), Refusal>
    ensures { tsns.after (dropped.done_told result) (queue_of queue.new table.new) ≡ applied_to_tsns (queue_of queue.old table.old) cumulative_tsn new_cumulative_tsn }
{
    queue.len(table)?;
    if serial_tsns::sna32lte(new_cumulative_tsn, cumulative_tsn) {
        return Ok(());
    }
    queue.pop_up_to(table, new_cumulative_tsn)
}
