// Whether loose fragments have a beginning and an ending among them.
#![tactic(auto)]

ghost use Rattle.std.specs.Prelude.{◌≡◌, ◌&&◌, ◌+◌, ◌*◌, ◌≤◌, length, take, drop};
ghost use Rattle.table.specs.Rows.{rows_of, some};
ghost use Rattle.fragments.specs.Frag.{of_row, begins, ends};

// Whether some row is B and some is E: a pass over all of them.
pub fn has_marks(table: &[u32], size: usize, from: usize, n: usize) -> bool
    requires table_len { length table.now ≡ 4 * size }
    requires n_bound { from + n ≤ size }
    ensures { result ≡ (some (of_row begins) (take n (drop from (rows_of size table.now))) && some (of_row ends) (take n (drop from (rows_of size table.now)))) }
{
    let mut begin = false;
    let mut end = false;
    for head in table_columns::heads(table, size, from, n) {
        let flags = *head / 16777216;
        begin = begin | (flags / 2 % 2 == 1);
        end = end | (flags % 2 == 1);
    }
    begin & end
}
