// What the calls of the in-flight queue are made of: what a record says, and the numbers of messages that stay.
#![tactic(auto)]

ghost use Rattle.std.specs.Prelude.{◌≡◌, ◌*◌, ◌≤◌, length, take};
ghost use Rattle.wire_model.specs.BigEndian.{over};
ghost use Rattle.table.specs.Rows.{rows_of};
ghost use Rattle.payload_model.specs.Limits.{tsns_most};
ghost use Rattle.payload_model.specs.Queue.{stays_after};
ghost use Rattle.inflight_model.specs.Queue.{sent_of, kept_beside};
ghost use Rattle.inflight_model.specs.Answers.{sent_given};

use inflight_model::Sent;
use payload_model::TSNS;
use table::Row;

// What a record and the number beside it say.
pub fn sent_of(row: Row, message: u64) -> Sent
    ensures { sent_given result ≡ sent_of row message }
{
    let head = row.head;
    let queued = payload_record::chunk_of(row);
    Sent {
        queued,
        acked: head / 65536 % 2 == 1,
        abandoned: head / 131072 % 2 == 1,
        retransmit: head / 262144 % 2 == 1,
        message_id: message,
    }
}

// The numbers beside those of the first n records that are after a TSN, moved to the front.
pub fn keep_numbers(table: &[u32], messages: &mut [u64], n: usize, tsn: u32)
    requires table_len { length table.now ≡ 4 * tsns_most }
    requires n_le_tsns_most { n ≤ tsns_most }
    requires n_in_bounds { n ≤ length messages.old }
    ensures { messages.new ≡ over messages.old (kept_beside (stays_after tsn) (take n (rows_of tsns_most table.now)) (take n messages.old)) }
{
    let mut left: usize = 0;
    for i in 0..n {
        if !serial_tsns::sna32lte(table[TSNS + i], tsn) {
            messages[left] = messages[i];
            left += 1;
        }
    }
}
