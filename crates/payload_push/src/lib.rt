// A TSN that comes, pushed.
#![tactic(auto)]

ghost use Rattle.std.specs.Prelude.{◌≡◌};
ghost use Rattle.payload_model.specs.Queue.{queue_of, after, row_of, pushed};
ghost use Rattle.refusal.specs.Told.{flag_told};

use data_fields::ChunkPayloadData;
use payload_model::{Counts, TSNS, WORDS};
use refusal::Refusal;
use serial_model::Order;

// Stores the chunk by its TSN: true; or logs its TSN where it is held or old: false. 17, ahead of these, where it is opposite to the cumulative one; 8 where
// no room is left.
pub fn push(
    counts: &mut Counts,
    table: &mut [u32; WORDS],
    chunk: ChunkPayloadData,
    size: u16,
    cumulative: u32,
) -> Result<bool, Refusal>
    ensures { after (flag_told result) (queue_of counts.new table.new) ≡ pushed (queue_of counts.old table.old) (row_of chunk size) cumulative }
{
    if payload_counts::unsound(*counts, table) {
        return Err(Refusal::Unsound);
    }
    let row = payload_record::row_of(chunk, size);
    let tsn = row.tsn;
    match serial_compare::tsn_compare(tsn, cumulative) {
        Order::Opposite => return Err(Refusal::OppositeTsn),
        Order::Earlier | Order::Same => {
            payload_parts::log_tsn(counts, tsn);
            return Ok(false);
        }
        Order::Later => {}
    }
    let count = counts.count;
    if table_search::has_tsn(table, TSNS, 0, count, tsn) {
        payload_parts::log_tsn(counts, tsn);
        return Ok(false);
    }
    if TSNS <= count {
        return Err(Refusal::NoRoom);
    }
    let at = table_places::place_tsn(table, TSNS, 0, count, tsn);
    table_put::put_row(table, TSNS, count, at, row);
    counts.count = count + 1;
    counts.n_bytes += size as usize;
    Ok(true)
}
