// The columns of a table's rows: a field of the n rows from one on, as the slice of words that it is. What looks for a row by one field goes over these.
#![tactic(auto)]

ghost use Rattle.std.specs.Prelude.{◌≡◌, ◌+◌, ◌*◌, ◌≤◌, map, length, take, drop};
ghost use Rattle.table.specs.Rows.{rows_of};

// The heads of the rows.
pub fn heads(table: &[u32], size: usize, from: usize, n: usize) -> &[u32]
    requires table_len { length table.now ≡ 4 * size }
    requires n_bound { from + n ≤ size }
    ensures { result.now ≡ map (λ r. r.head) (take n (drop from (rows_of size table.now))) }
{
    &table[from..from + n]
}

// Their TSNs.
pub fn tsns(table: &[u32], size: usize, from: usize, n: usize) -> &[u32]
    requires table_len { length table.now ≡ 4 * size }
    requires n_bound { from + n ≤ size }
    ensures { result.now ≡ map (λ r. r.tsn) (take n (drop from (rows_of size table.now))) }
{
    let first = size + from;
    &table[first..first + n]
}

// Their ids.
pub fn ids(table: &[u32], size: usize, from: usize, n: usize) -> &[u32]
    requires table_len { length table.now ≡ 4 * size }
    requires n_bound { from + n ≤ size }
    ensures { result.now ≡ map (λ r. r.id) (take n (drop from (rows_of size table.now))) }
{
    let first = 2 * size + from;
    &table[first..first + n]
}
