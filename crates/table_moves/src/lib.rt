// Rows of a lent table, moved: some taken out, and some turned round.
#![tactic(auto)]

ghost use Rattle.std.specs.Prelude.{◌≡◌, ◌+◌, ◌*◌, ◌≤◌, length, take};
ghost use Rattle.wire_model.specs.BigEndian.{over};
ghost use Rattle.moves_model.specs.Lists.{gone, turned};
ghost use Rattle.table.specs.Rows.{rows_of};

// The k rows at index at taken out of the first n.
pub fn close_rows(table: &mut [u32], size: usize, n: usize, at: usize, k: usize)
    requires table_len { length table.old ≡ 4 * size }
    requires n_le_size { n ≤ size }
    requires k_bound { at + k ≤ n }
    ensures { rows_of size table.new ≡ over (rows_of size table.old) (gone at k (take n (rows_of size table.old))) }
{
    let ids = 2 * size;
    let ppis = 3 * size;
    moves::close(table, n, at, k);
    moves::close(table, size + n, size + at, k);
    moves::close(table, ids + n, ids + at, k);
    moves::close(table, ppis + n, ppis + at, k);
}

// The rows from b up to e moved in front of those from a up to b.
pub fn turn_rows(table: &mut [u32], size: usize, a: usize, b: usize, e: usize)
    requires table_len { length table.old ≡ 4 * size }
    requires a_le_b { a ≤ b }
    requires b_le_e { b ≤ e }
    requires e_le_size { e ≤ size }
    ensures { rows_of size table.new ≡ turned a b e (rows_of size table.old) }
{
    let ids = 2 * size;
    let ppis = 3 * size;
    moves::turn(table, a, b, e);
    moves::turn(table, size + a, size + b, size + e);
    moves::turn(table, ids + a, ids + b, ids + e);
    moves::turn(table, ppis + a, ppis + b, ppis + e);
}
