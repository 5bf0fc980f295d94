// Marks on held records: to be sent again, abandoned. They stand in the column of heads alone, so that a pass over all records is
// vector code.
#![tactic(auto)]

ghost use Rattle.std.specs.Prelude.{◌≡◌, map, ◌*◌, ◌≤◌, length, take};
ghost use Rattle.wire_model.specs.BigEndian.{over};
ghost use Rattle.table.specs.Rows.{rows_of};
ghost use Rattle.payload_model.specs.Limits.{tsns_most};
ghost use Rattle.inflight_model.specs.Queue.{again_row, abandoned_among};

// Each of the first n records marked to be sent again.
pub fn mark_again(table: &mut [u32], n: usize)
    requires table_len { length table.old ≡ 4 * tsns_most }
    requires n_le_tsns_most { n ≤ tsns_most }
    ensures { rows_of tsns_most table.new ≡ over (rows_of tsns_most table.old) (map again_row (take n (rows_of tsns_most table.old))) }
{
    for head in table[..n].iter_mut() {
        *head = inflight_head::again_head(*head);
    }
}

// Those of the first n records abandoned beside which a message's number stands.
pub fn abandon(table: &mut [u32], messages: &[u64], n: usize, message: u64)
    requires table_len { length table.old ≡ 4 * tsns_most }
    requires n_le_tsns_most { n ≤ tsns_most }
    requires n_in_bounds { n ≤ length messages.now }
    ensures { rows_of tsns_most table.new ≡ over (rows_of tsns_most table.old) (abandoned_among message (take n (rows_of tsns_most table.old)) (take n messages.now)) }
{
    for i in 0..n {
        table[i] = inflight_head::abandoned_if(messages[i] == message, table[i]);
    }
}
