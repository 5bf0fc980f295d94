// A message taken out from among the held fragments, where the lent buffer has room for it.
#![tactic(auto)]

ghost use Rattle.std.specs.Prelude.{◌≡◌, ◌+◌, ◌*◌, ◌≤◌, ◌<◌, length, take};
ghost use Rattle.table.specs.Rows.{rows_of, total};
ghost use Rattle.fragments.specs.Frag.{long_length};
ghost use Rattle.fragments.specs.Pool.{cut};
ghost use Rattle.reassembly_state.specs.Limits.{frags_most};
ghost use Rattle.reassembly_state.specs.Rows.{out, taken_out};
ghost use Rattle.reassembly_message.specs.Among.{among_told, went, went_bytes};

use chunks::Chunks;
use reassembly_state::FRAGMENTS;
use refusal::Refusal;

// Takes the k fragments at index from out of all those held, of so many bytes, `off` of them ahead of the message, to the front of the lent buffer;
// 10, and none of them goes, where that is too short. Fragments of others may stand before and behind.
pub fn take_among(
    table: &mut [u32],
    pool: &mut [u8],
    buffer: &mut [u8],
    held: usize,
    bytes: usize,
    from: usize,
    k: usize,
    off: usize,
    ordered: bool,
) -> Result<Chunks, Refusal>
    requires table_len { length table.old ≡ 4 * frags_most }
    requires held_le_frags_most { held ≤ frags_most }
    requires k_bound { from + k ≤ held }
    requires k_nonzero { 0 < k }
    requires table_value { total long_length (take held (rows_of frags_most table.old)) ≡ bytes }
    requires bytes_in_bounds { bytes ≤ length pool.old }
    requires off_value { off ≡ total long_length (take from (rows_of frags_most table.old)) }
    ensures { out (among_told result) (went k result) (went_bytes result) (rows_of frags_most table.new) pool.new buffer.new ≡ taken_out ordered from k (cut (take held (rows_of frags_most table.old)) pool.old) (rows_of frags_most table.old) pool.old buffer.old }
{
    let size = fragments::sum_long(table, FRAGMENTS, from, k);
    if buffer.len() < size {
        return Err(Refusal::ShortOutput);
    }
    Ok(reassembly_hand::take_run(
        table, pool, buffer, held, bytes, from, k, off, size, ordered,
    ))
}
