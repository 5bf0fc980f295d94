// Rows written to a lent table: one put in between others, and one written over another.
#![tactic(auto)]

ghost use Rattle.std.specs.Prelude.{◌≡◌, [], ◌∷◌, ◌+◌, ◌*◌, ◌≤◌, ◌<◌, length, take, set};
ghost use Rattle.wire_model.specs.BigEndian.{over};
ghost use Rattle.moves_model.specs.Lists.{put};
ghost use Rattle.table.specs.Rows.{rows_of};

use table::Row;

// One row put in at index at of the first n.
pub fn put_row(table: &mut [u32], size: usize, n: usize, at: usize, new: Row)
    requires table_len { length table.old ≡ 4 * size }
    requires n_lt_size { n < size }
    requires at_le_n { at ≤ n }
    ensures { rows_of size table.new ≡ over (rows_of size table.old) (put at (new ∷ []) (take n (rows_of size table.old))) }
{
    let ids = 2 * size;
    let ppis = 3 * size;
    moves::put_one(table, n, at, new.head);
    moves::put_one(table, size + n, size + at, new.tsn);
    moves::put_one(table, ids + n, ids + at, new.id);
    moves::put_one(table, ppis + n, ppis + at, new.ppi);
}

// One row written over that at an index.
pub fn set_row(table: &mut [u32], size: usize, at: usize, new: Row)
    requires table_len { length table.old ≡ 4 * size }
    requires at_lt_size { at < size }
    ensures { rows_of size table.new ≡ set (rows_of size table.old) at new }
{
    let ids = 2 * size;
    let ppis = 3 * size;
    table[at] = new.head;
    table[size + at] = new.tsn;
    table[ids + at] = new.id;
    table[ppis + at] = new.ppi;
}
