// A message taken out from among the held fragments, into the hand.
#![tactic(auto)]

ghost use Rattle.std.specs.Prelude.{◌≡◌, true, false, cond, ◌+◌, ◌*◌, ◌≤◌, ◌<◌, length, take, drop};
ghost use Rattle.wire_model.specs.BigEndian.{over};
ghost use Rattle.moves_model.specs.Lists.{gone};
ghost use Rattle.table.specs.Rows.{rows_of, total};
ghost use Rattle.fragments.specs.Frag.{long_length};
ghost use Rattle.fragments.specs.Words.{joined};
ghost use Rattle.fragments.specs.Pool.{cut, lay_rows, lay_bytes};
ghost use Rattle.reassembly_state.specs.Limits.{frags_most};
ghost use Rattle.reassembly_state.specs.Rows.{message_by};
ghost use Rattle.reassembly_state.specs.Answers.{message_held};

use chunks::Chunks;
use reassembly_state::FRAGMENTS;

// The message in hand, of so many bytes: an unordered one has SSN 0.
fn in_hand(ordered: bool, ssn: u16, ppi: u32, size: usize) -> Chunks
    ensures { message_held result ≡ record { comes = true; ssn = cond ordered ssn 0; ppi = ppi; size = size; position = 0; given = false } }
{
    let mut number: u16 = 0;
    if ordered {
        number = ssn;
    }
    Chunks {
        ssn: number,
        ppi,
        size,
        position: 0,
        given: false,
    }
}

// Takes the k fragments at index from out of those held, a message whose bytes stand from `off` on, to the front of the lent buffer.
pub fn take_run(
    table: &mut [u32],
    pool: &mut [u8],
    buffer: &mut [u8],
    held: usize,
    bytes: usize,
    from: usize,
    k: usize,
    off: usize,
    size: usize,
    ordered: bool,
) -> Chunks
    requires table_len { length table.old ≡ 4 * frags_most }
    requires held_le_frags_most { held ≤ frags_most }
    requires k_bound { from + k ≤ held }
    requires k_nonzero { 0 < k }
    requires table_value { total long_length (take held (rows_of frags_most table.old)) ≡ bytes }
    requires bytes_in_bounds { bytes ≤ length pool.old }
    requires off_value { off ≡ total long_length (take from (rows_of frags_most table.old)) }
    requires size_value { size ≡ total long_length (take k (drop from (rows_of frags_most table.old))) }
    requires size_in_bounds { size ≤ length buffer.old }
    ensures result_value { message_held result ≡ message_by ordered (take k (drop from (cut (take held (rows_of frags_most table.old)) pool.old))) }
    ensures table_after { rows_of frags_most table.new ≡ lay_rows (gone from k (cut (take held (rows_of frags_most table.old)) pool.old)) (rows_of frags_most table.old) }
    ensures pool_after { pool.new ≡ lay_bytes (gone from k (cut (take held (rows_of frags_most table.old)) pool.old)) pool.old }
    ensures buffer_after { buffer.new ≡ over buffer.old (joined (take k (drop from (cut (take held (rows_of frags_most table.old)) pool.old)))) }
{
    wire_put::put_bytes(buffer, &pool[off..off + size]);
    let first = table::row_at(table, FRAGMENTS, from);
    fragment_close::close_fragments(table, FRAGMENTS, held, pool, bytes, from, k, off, size);
    let ssn = (first.id % 65536) as u16;
    in_hand(ordered, ssn, first.ppi, size)
}
