// The blocks of a gap report: counted in a dry pass, and written to two lent lists.
#![tactic(auto)]

ghost use Rattle.std.specs.Prelude.{◌≡◌, ◌*◌, ◌≤◌, length, take};
ghost use Rattle.wire_model.specs.BigEndian.{over};
ghost use Rattle.table.specs.Rows.{rows_of};
ghost use Rattle.gap_model.specs.Gap.{blocks, tsns_of, starts_of, ends_of};

use gap_following::following;

// The farthest offset that a report names: 16 bits.
const FARTHEST: u32 = 65535;

// How many blocks the report over the first n rows has. Nothing is written: the dry pass.
pub fn count_blocks(table: &[u32], size: usize, n: usize, cumulative: u32) -> usize
    requires table_len { length table.now ≡ 4 * size }
    requires n_le_size { n ≤ size }
    ensures { result ≡ length (blocks cumulative (tsns_of (take n (rows_of size table.now)))) }
{
    let mut needed: usize = 0;
    // The offset that extends the last block; 0 where there is none, since no counted offset is 0.
    let mut want: u32 = 0;
    for i in 0..n {
        let offset = serial_steps::tsn_offset(cumulative, table[size + i]);
        if 0 < offset && offset <= FARTHEST {
            if offset != want {
                needed += 1;
            }
            want = offset + 1;
        }
    }
    needed
}

// The blocks over the first n rows, written to the front of both lists, and how many they are.
pub fn write_blocks(
    table: &[u32],
    size: usize,
    n: usize,
    cumulative: u32,
    starts: &mut [u16],
    ends: &mut [u16],
) -> usize
    requires table_len { length table.now ≡ 4 * size }
    requires n_le_size { n ≤ size }
    requires table_in_bounds { length (blocks cumulative (tsns_of (take n (rows_of size table.now)))) ≤ length starts.old }
    requires table_in_bounds_2 { length (blocks cumulative (tsns_of (take n (rows_of size table.now)))) ≤ length ends.old }
    ensures value { result ≡ length (blocks cumulative (tsns_of (take n (rows_of size table.now)))) }
    ensures starts_after { starts.new ≡ over starts.old (starts_of (blocks cumulative (tsns_of (take n (rows_of size table.now))))) }
    ensures ends_after { ends.new ≡ over ends.old (ends_of (blocks cumulative (tsns_of (take n (rows_of size table.now))))) }
{
    let mut count: usize = 0;
    // The offset that extends the last block, as in count_blocks.
    let mut want: u32 = 0;
    // No `for`: `i += more` leaves out the TSNs that `following` has counted.
    let mut i: usize = 0;
    while i < n {
        let tsn = table[size + i];
        let offset = serial_steps::tsn_offset(cumulative, tsn);
        i += 1;
        if 0 < offset {
            if offset <= FARTHEST {
                if offset == want {
                    let room = (FARTHEST - offset) as usize;
                    let more = following(table, size, i, n, room, serial_steps::tsn_next(tsn));
                    let last = offset + more as u32;
                    ends[count - 1] = last as u16;
                    want = last + 1;
                    i += more;
                } else {
                    let place = offset as u16;
                    starts[count] = place;
                    ends[count] = place;
                    count += 1;
                    want = offset + 1;
                }
            }
        }
    }
    count
}
