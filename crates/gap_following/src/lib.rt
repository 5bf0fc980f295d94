// The TSNs that follow one another from a row on, counted.
#![tactic(auto)]

ghost use Rattle.std.specs.Prelude.{◌≡◌, ◌*◌, ◌≤◌, length, take, drop};
ghost use Rattle.table.specs.Rows.{rows_of};
ghost use Rattle.gap_model.specs.Adjacent.{adjacent};
ghost use Rattle.gap_model.specs.Gap.{tsns_of};

// How many of the TSNs from row `from` up to n follow one another, the first of them the given one; at most `room`. A simple pass, since most arrive in order.
pub fn following(table: &[u32], size: usize, from: usize, n: usize, room: usize, tsn: u32) -> usize
    requires table_len { length table.now ≡ 4 * size }
    requires from_le_n { from ≤ n }
    requires n_le_size { n ≤ size }
    ensures { result ≡ adjacent room tsn (drop from (tsns_of (take n (rows_of size table.now)))) }
{
    let tsns = size + from;
    let most = room.min(n - from);
    let mut want = tsn;
    for i in 0..most {
        if table[tsns + i] != want {
            return i;
        }
        want = serial_steps::tsn_next(want);
    }
    most
}
