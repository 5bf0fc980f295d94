// The gap report: the runs of held TSNs above the cumulative one, as offsets of 16 bits.
#![tactic(auto)]

ghost use Rattle.std.specs.Prelude.{◌≡◌, ◌*◌, ◌≤◌, length, take};
ghost use Rattle.table.specs.Rows.{rows_of};
ghost use Rattle.gap_model.specs.Gap.{report, reported};

use gap_blocks::{count_blocks, write_blocks};
use refusal::Refusal;

// The report over the first n rows: written where both lists have room, else refused, and nothing is changed.
// There are at most n blocks, so lists of n places need no dry pass.
pub fn report(
    table: &[u32],
    size: usize,
    n: usize,
    cumulative: u32,
    starts: &mut [u16],
    ends: &mut [u16],
) -> Result<usize, Refusal>
    requires table_len { length table.now ≡ 4 * size }
    requires n_le_size { n ≤ size }
    ensures { report result starts.new ends.new ≡ reported (take n (rows_of size table.now)) cumulative starts.old ends.old }
{
    if n <= starts.len() {
        if n <= ends.len() {
            return Ok(write_blocks(table, size, n, cumulative, starts, ends));
        }
    }
    let needed = count_blocks(table, size, n, cumulative);
    if needed > starts.len() {
        return Err(Refusal::ShortOutput);
    }
    if needed > ends.len() {
        return Err(Refusal::ShortOutput);
    }
    Ok(write_blocks(table, size, n, cumulative, starts, ends))
}
