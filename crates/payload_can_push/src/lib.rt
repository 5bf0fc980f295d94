// A TSN that comes: whether it can be pushed.
#![tactic(auto)]

ghost use Rattle.std.specs.Prelude.{◌≡◌};
ghost use Rattle.payload_model.specs.Queue.{queue_of, can_push};
ghost use Rattle.refusal.specs.Told.{flag_told};

use payload_model::{Counts, TSNS, WORDS};
use refusal::Refusal;

// Whether the TSN is neither held nor at or before the cumulative one.
pub fn can_push(
    counts: Counts,
    table: &[u32; WORDS],
    tsn: u32,
    cumulative: u32,
) -> Result<bool, Refusal>
    ensures { flag_told result ≡ can_push (queue_of counts table.now) tsn cumulative }
{
    if payload_counts::unsound(counts, table) {
        return Err(Refusal::Unsound);
    }
    let count = counts.count;
    if table_search::has_tsn(table, TSNS, 0, count, tsn) {
        return Ok(false);
    }
    Ok(!serial_tsns::sna32lte(tsn, cumulative))
}
