// The test of a TSN queue's counts, which every call of it starts with, and the calls that only tell a count.
#![tactic(auto)]

ghost use Rattle.std.specs.Prelude.{◌≡◌, ◌*◌, length};
ghost use Rattle.payload_model.specs.Limits.{tsns_most};
ghost use Rattle.payload_model.specs.Queue.{queue_of, unsound, counted, is_empty, num_bytes};
ghost use Rattle.refusal.specs.Told.{flag_told, count_told};

use payload_model::{Counts, LOG, TSNS, WORDS};
use refusal::Refusal;

// Refusal 0: a count above its table, or a byte count that is not the sum of the held lengths.
pub fn unsound(counts: Counts, table: &[u32]) -> bool
    requires { length table.now ≡ 4 * tsns_most }
    ensures { result ≡ unsound (queue_of counts table.now) }
{
    let count = counts.count;
    if TSNS < count {
        return true;
    }
    if LOG < counts.dups {
        return true;
    }
    let sum = table_sums::sum_short(table, TSNS, 0, count);
    sum != counts.n_bytes
}

// The sum of the held data lengths.
pub fn get_num_bytes(counts: Counts, table: &[u32; WORDS]) -> Result<usize, Refusal>
    ensures { count_told result ≡ num_bytes (queue_of counts table.now) }
{
    if unsound(counts, table) {
        return Err(Refusal::Unsound);
    }
    Ok(counts.n_bytes)
}

// How many TSNs are held.
pub fn len(counts: Counts, table: &[u32; WORDS]) -> Result<usize, Refusal>
    ensures { count_told result ≡ counted (queue_of counts table.now) }
{
    if unsound(counts, table) {
        return Err(Refusal::Unsound);
    }
    Ok(counts.count)
}

// Whether none is held.
pub fn is_empty(counts: Counts, table: &[u32; WORDS]) -> Result<bool, Refusal>
    ensures { flag_told result ≡ is_empty (queue_of counts table.now) }
{
    if unsound(counts, table) {
        return Err(Refusal::Unsound);
    }
    Ok(counts.count == 0)
}
