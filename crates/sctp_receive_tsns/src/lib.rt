// What the C call that pushes to the TSN queue is made of.
#![tactic(auto)]

ghost use Rattle.std.specs.Prelude.{◌≡◌};
ghost use Rattle.payload_model.specs.Queue.{after, row_of, pushed};
ghost use Rattle.sctp_receive_result.specs.Result.{told};
ghost use Rattle.sctp_receive_counts.specs.States.{tsns_from};

use data_fields::ChunkPayloadData;
use payload_queue::{LOG, WORDS};
use sctp_receive_answers::flag;
use sctp_receive_counts::{note, of_counts, put_counts};

// Stores the chunk by its TSN, or logs its TSN where it is held or old; 17 where it is opposite to the cumulative one, 8 where no room is left.
pub fn push(
    count: &mut usize,
    n_bytes: &mut usize,
    dups: &mut usize,
    dup_tsn: &mut [u32; LOG],
    table: &mut [u32; WORDS],
    chunk: ChunkPayloadData,
    size: u16,
    cumulative: u32,
    is: &mut bool,
) -> i32
    ensures { after (told result is.new) (tsns_from count.new n_bytes.new dups.new dup_tsn.new table.new) ≡ pushed (tsns_from count.old n_bytes.old dups.old dup_tsn.old table.old) (row_of chunk size) cumulative }
{
    let at = *dups;
    let mut queue = of_counts(*count, *n_bytes, at);
    let answer = queue.push(table, chunk, size, cumulative);
    put_counts(queue, count, n_bytes, dups);
    note(dup_tsn, at, queue.counts.dups, chunk.tsn);
    flag(answer, is)
}
