// Rows of a lent table of words, column after column: heads, TSNs, ids, payload identifiers, `size` words each.
// Column by column, because the passes over all TSNs and all lengths that every call needs are then vector code.
#![tactic(auto)]

ghost use Rattle.std.specs.Prelude.{◌≡◌, ◌+◌, ◌*◌, ◌<◌, length, get_or};
ghost use Rattle.table.specs.Rows.{blank, rows_of};

// One record: flags and data length, TSN, stream and SSN, payload identifier.
#[derive(Clone, Copy)]
pub struct Row {
    pub head: u32,
    pub tsn: u32,
    pub id: u32,
    pub ppi: u32,
}

// The row at an index.
pub fn row_at(table: &[u32], size: usize, i: usize) -> Row
    requires table_len { length table.now ≡ 4 * size }
    requires i_lt_size { i < size }
    ensures { result ≡ get_or (rows_of size table.now) i blank }
{
    let ids = 2 * size;
    let ppis = 3 * size;
    Row {
        head: table[i],
        tsn: table[size + i],
        id: table[ids + i],
        ppi: table[ppis + i],
    }
}
