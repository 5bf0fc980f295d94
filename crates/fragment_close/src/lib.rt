// Fragments taken out from among those held: what stands behind them moves down.
#![tactic(auto)]

ghost use Rattle.std.specs.Prelude.{◌≡◌, ◌+◌, ◌*◌, ◌≤◌, length, take, drop};
ghost use Rattle.moves_model.specs.Lists.{gone};
ghost use Rattle.table.specs.Rows.{rows_of, total};
ghost use Rattle.fragments.specs.Frag.{long_length};
ghost use Rattle.fragments.specs.Pool.{cut, lay_rows, lay_bytes};

// The k fragments at index at, of so many bytes from `off` on, taken out of the first n, whose bytes are the first `held` of the pool.
// Nothing moves where they are the last.
pub fn close_fragments(
    table: &mut [u32],
    size: usize,
    n: usize,
    pool: &mut [u8],
    held: usize,
    at: usize,
    k: usize,
    off: usize,
    bytes: usize,
)
    requires table_len { length table.old ≡ 4 * size }
    requires n_le_size { n ≤ size }
    requires k_bound { at + k ≤ n }
    requires table_value { total long_length (take n (rows_of size table.old)) ≡ held }
    requires held_in_bounds { held ≤ length pool.old }
    requires off_value { off ≡ total long_length (take at (rows_of size table.old)) }
    requires bytes_value { bytes ≡ total long_length (take k (drop at (rows_of size table.old))) }
    ensures table_after { rows_of size table.new ≡ lay_rows (gone at k (cut (take n (rows_of size table.old)) pool.old)) (rows_of size table.old) }
    ensures pool_after { pool.new ≡ lay_bytes (gone at k (cut (take n (rows_of size table.old)) pool.old)) pool.old }
{
    if at + k == n {
        return;
    }
    moves::close(pool, held, off, bytes);
    table_moves::close_rows(table, size, n, at, k);
}

// The k fragments at index at taken out of the first n, whose bytes are the first `held` of the pool; answers how many bytes they had.
pub fn remove_fragments(
    table: &mut [u32],
    size: usize,
    n: usize,
    pool: &mut [u8],
    held: usize,
    at: usize,
    k: usize,
) -> usize
    requires size_bound { size ≤ 65536 }
    requires table_len { length table.old ≡ 4 * size }
    requires n_le_size { n ≤ size }
    requires k_bound { at + k ≤ n }
    requires table_value { total long_length (take n (rows_of size table.old)) ≡ held }
    requires held_in_bounds { held ≤ length pool.old }
    ensures value { result ≡ total long_length (take k (drop at (rows_of size table.old))) }
    ensures table_after { rows_of size table.new ≡ lay_rows (gone at k (cut (take n (rows_of size table.old)) pool.old)) (rows_of size table.old) }
    ensures pool_after { pool.new ≡ lay_bytes (gone at k (cut (take n (rows_of size table.old)) pool.old)) pool.old }
{
    let off = fragments::sum_long(table, size, 0, at);
    let bytes = fragments::sum_long(table, size, at, k);
    close_fragments(table, size, n, pool, held, at, k, off, bytes);
    bytes
}
