// What the calls of the TSN queue are made of: the records that stay, and the log.
#![tactic(auto)]

ghost use Rattle.std.specs.Prelude.{◌≡◌, List, ℕ, ◌*◌, ◌≤◌, length, take};
ghost use Rattle.wire_model.specs.BigEndian.{over};
ghost use Rattle.table.specs.Rows.{rows_of, kept};
ghost use Rattle.payload_model.specs.Limits.{tsns_most, log_most};
ghost use Rattle.payload_model.specs.Queue.{queue_of, logged, stays_after, zeros};

use payload_model::{Counts, LOG, TSNS};

// The first n places of the log, and zeros.
pub fn handed(log: [u32; LOG], n: usize) -> [u32; LOG]
    requires { n ≤ log_most }
    ensures { result ≡ over zeros (take n log) }
{
    let mut out = [0u32; LOG];
    out[..n].copy_from_slice(&log[..n]);
    out
}

// The records of the first n that are not at or before a TSN, moved to the front; answers how many they are.
pub fn keep_after(table: &mut [u32], n: usize, tsn: u32) -> usize
    requires table_len { length table.old ≡ 4 * tsns_most }
    requires n_le_tsns_most { n ≤ tsns_most }
    ensures value { result ≡ length (kept (stays_after tsn) (take n (rows_of tsns_most table.old))) }
    ensures table_after { rows_of tsns_most table.new ≡ over (rows_of tsns_most table.old) (kept (stays_after tsn) (take n (rows_of tsns_most table.old))) }
{
    let mut left: usize = 0;
    for i in 0..n {
        let row = table::row_at(table, TSNS, i);
        if !serial_tsns::sna32lte(row.tsn, tsn) {
            table_put::set_row(table, TSNS, left, row);
            left += 1;
        }
    }
    left
}

// Logs a TSN, where the log has room.
pub fn log_tsn(counts: &mut Counts, tsn: u32)
    ensures { (ws : List ℕ) → queue_of counts.new ws ≡ logged (queue_of counts.old ws) tsn }
{
    let at = counts.dups;
    if at < LOG {
        counts.dup_tsn[at] = tsn;
        counts.dups = at + 1;
    }
}
