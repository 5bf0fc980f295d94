// The data lengths of a table's rows, summed.
#![tactic(auto)]

ghost use Rattle.std.specs.Prelude.{◌≡◌, ◌+◌, ◌*◌, ◌≤◌, length, take, drop};
ghost use Rattle.table.specs.Rows.{rows_of, total, short_length};

// A data length of 16 bits, in the low half of a head.
fn short_length(head: u32) -> u32
    ensures { result ≡ short_length head }
{
    head % 65536
}

// The sum of the data lengths, of 16 bits each, of the n rows from one on. So many fit in 32 bits, in which a pass adds twice as many at once.
pub fn sum_short(table: &[u32], size: usize, from: usize, n: usize) -> usize
    requires size_bound { size ≤ 65536 }
    requires table_len { length table.now ≡ 4 * size }
    requires n_bound { from + n ≤ size }
    ensures { result ≡ total short_length (take n (drop from (rows_of size table.now))) }
{
    let mut sum: u32 = 0;
    for head in &table[from..from + n] {
        sum += short_length(*head);
    }
    sum as usize
}
