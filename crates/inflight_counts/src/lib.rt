// The test of an in-flight queue's counts, which every call of it starts with, and the calls that only tell a count.
#![tactic(auto)]

ghost use Rattle.std.specs.Prelude.{◌≡◌, List, ℕ, ◌*◌, length};
ghost use Rattle.payload_model.specs.Limits.{tsns_most};
ghost use Rattle.refusal.specs.Told.{flag_told, count_told};
ghost use Rattle.inflight_model.specs.Queue.{queue_of, unsound, counted, is_empty, num_bytes};

use inflight_model::Counts;
use payload_model::{TSNS, WORDS};
use refusal::Refusal;

// Refusal 0: a count above its table, or a byte count that is not the sum of the lengths that are not released. The numbers play no part in it.
pub fn unsound(counts: Counts, table: &[u32]) -> bool
    requires { length table.now ≡ 4 * tsns_most }
    ensures { (ms : List ℕ) → result ≡ unsound (queue_of counts table.now ms) }
{
    let count = counts.count;
    if TSNS < count {
        return true;
    }
    let sum = table_sums::sum_short(table, TSNS, 0, count);
    sum != counts.n_bytes
}

// The sum of the lengths that are not released.
pub fn get_num_bytes(counts: Counts, table: &[u32; WORDS]) -> Result<usize, Refusal>
    ensures { (ms : List ℕ) → count_told result ≡ num_bytes (queue_of counts table.now ms) }
{
    if unsound(counts, table) {
        return Err(Refusal::Unsound);
    }
    Ok(counts.n_bytes)
}

// How many TSNs are held.
pub fn len(counts: Counts, table: &[u32; WORDS]) -> Result<usize, Refusal>
    ensures { (ms : List ℕ) → count_told result ≡ counted (queue_of counts table.now ms) }
{
    if unsound(counts, table) {
        return Err(Refusal::Unsound);
    }
    Ok(counts.count)
}

// Whether none is held.
pub fn is_empty(counts: Counts, table: &[u32; WORDS]) -> Result<bool, Refusal>
    ensures { (ms : List ℕ) → flag_told result ≡ is_empty (queue_of counts table.now ms) }
{
    if unsound(counts, table) {
        return Err(Refusal::Unsound);
    }
    Ok(counts.count == 0)
}
