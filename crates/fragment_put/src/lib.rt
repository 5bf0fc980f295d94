// A fragment put in among those held.
#![tactic(auto)]

ghost use Rattle.std.specs.Prelude.{◌≡◌, [], ◌∷◌, ◌+◌, ◌*◌, ◌≤◌, ◌<◌, length, take};
ghost use Rattle.moves_model.specs.Lists.{put};
ghost use Rattle.table.specs.Rows.{rows_of, total};
ghost use Rattle.fragments.specs.Frag.{long_length, frag_of};
ghost use Rattle.fragments.specs.Pool.{cut, lay_rows, lay_bytes};

use table::Row;

// The byte at which the fragment at index at of the first n starts: behind all of them that is the number of bytes held.
fn start_of(table: &[u32], size: usize, n: usize, held: usize, at: usize) -> usize
    requires size_bound { size ≤ 65536 }
    requires table_len { length table.now ≡ 4 * size }
    requires n_le_size { n ≤ size }
    requires at_le_n { at ≤ n }
    requires table_value { total long_length (take n (rows_of size table.now)) ≡ held }
    ensures { result ≡ total long_length (take at (rows_of size table.now)) }
{
    if at == n {
        return held;
    }
    fragments::sum_long(table, size, 0, at)
}

// A fragment put in at index at of the first n, whose bytes are the first `held` of the pool.
pub fn put_fragment(
    table: &mut [u32],
    size: usize,
    n: usize,
    pool: &mut [u8],
    held: usize,
    at: usize,
    row: Row,
    bytes: &[u8],
)
    requires size_bound { size ≤ 65536 }
    requires table_len { length table.old ≡ 4 * size }
    requires n_lt_size { n < size }
    requires at_le_n { at ≤ n }
    requires table_value { total long_length (take n (rows_of size table.old)) ≡ held }
    requires bytes_in_bounds { held + length bytes.now ≤ length pool.old }
    requires head_value { long_length row.head ≡ length bytes.now }
    ensures table_after { rows_of size table.new ≡ lay_rows (put at (frag_of row bytes.now ∷ []) (cut (take n (rows_of size table.old)) pool.old)) (rows_of size table.old) }
    ensures pool_after { pool.new ≡ lay_bytes (put at (frag_of row bytes.now ∷ []) (cut (take n (rows_of size table.old)) pool.old)) pool.old }
{
    let off = start_of(table, size, n, held, at);
    moves::put(pool, held, off, bytes);
    table_put::put_row(table, size, n, at, row);
}
