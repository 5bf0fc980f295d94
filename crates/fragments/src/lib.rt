// Fragments: records of a lent table, and their bytes in a lent pool. The payload of record i stands right after that of record i-1, so no
// places are stored: no two can share a byte, and freed room is usable at once.
#![tactic(auto)]

ghost use Rattle.std.specs.Prelude.{◌≡◌, ◌+◌, ◌-◌, ◌*◌, ◌≤◌, length, take, drop};
ghost use Rattle.wire_model.specs.BigEndian.{over};
ghost use Rattle.moves_model.specs.Lists.{gone, turned};
ghost use Rattle.table.specs.Rows.{rows_of, total};
ghost use Rattle.fragments.specs.Frag.{long_length};
ghost use Rattle.fragments.specs.Pool.{cut, lay_rows, lay_bytes};

// A data length of 24 bits, in the lower bits of a head.
pub fn long_length(head: u32) -> usize
    ensures { result ≡ long_length head }
{
    (head % 16777216) as usize
}

// The sum of the data lengths, of 24 bits each, of the n rows from one on.
pub fn sum_long(table: &[u32], size: usize, from: usize, n: usize) -> usize
    requires size_bound { size ≤ 65536 }
    requires table_len { length table.now ≡ 4 * size }
    requires n_bound { from + n ≤ size }
    ensures { result ≡ total long_length (take n (drop from (rows_of size table.now))) }
{
    let heads = table_columns::heads(table, size, from, n);
    heads.iter().map(|head| long_length(*head)).sum()
}

// The fragments from index b up to e moved in front of those from a up to b.
pub fn move_fragments(
    table: &mut [u32],
    size: usize,
    n: usize,
    pool: &mut [u8],
    a: usize,
    b: usize,
    e: usize,
)
    requires size_bound { size ≤ 65536 }
    requires table_len { length table.old ≡ 4 * size }
    requires n_le_size { n ≤ size }
    requires a_le_b { a ≤ b }
    requires b_le_e { b ≤ e }
    requires e_le_n { e ≤ n }
    requires table_in_bounds { total long_length (take n (rows_of size table.old)) ≤ length pool.old }
    ensures table_after { rows_of size table.new ≡ lay_rows (turned a b e (cut (take n (rows_of size table.old)) pool.old)) (rows_of size table.old) }
    ensures pool_after { pool.new ≡ lay_bytes (turned a b e (cut (take n (rows_of size table.old)) pool.old)) pool.old }
{
    if a == b {
        return;
    }
    let first = sum_long(table, size, 0, a);
    let middle = first + sum_long(table, size, a, b - a);
    let end = middle + sum_long(table, size, b, e - b);
    moves::turn(pool, first, middle, end);
    table_moves::turn_rows(table, size, a, b, e);
}

// The k fragments at index `at`, whose bytes stand from `off` up to `end`, moved down to index `to` and byte `place`.
pub fn move_down(
    table: &mut [u32],
    size: usize,
    pool: &mut [u8],
    to: usize,
    at: usize,
    k: usize,
    place: usize,
    off: usize,
    end: usize,
)
    requires table_len { length table.old ≡ 4 * size }
    requires to_le_at { to ≤ at }
    requires k_bound { at + k ≤ size }
    requires place_le_off { place ≤ off }
    requires off_le_end { off ≤ end }
    requires end_in_bounds { end ≤ length pool.old }
    ensures table_after { rows_of size table.new ≡ over (rows_of size table.old) (gone to (at - to) (take (at + k) (rows_of size table.old))) }
    ensures pool_after { pool.new ≡ over pool.old (gone place (off - place) (take end pool.old)) }
{
    table_moves::close_rows(table, size, at + k, to, at - to);
    moves::close(pool, end, place, off - place);
}
