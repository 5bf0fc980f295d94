// The TSN queue. C keeps its counts and its log, each by itself, and lends the table of 4,096 words to every call; a call that changes them takes each by reference.
// Refusal 0, before every other answer: a count above its table, or a byte count that is not the sum of the held lengths. Out values are 0 and false beside a refusal.
ghost use Rattle.std.specs.Prelude.{◌≡◌};
ghost use Rattle.payload_model.specs.Queue.{after, row_of, pushed, can_push, popped, popped_up_to, popped_duplicates};
ghost use Rattle.payload_queue.specs.Queue.{fresh};
ghost use Rattle.forward_tsn.specs.Applied.{applied_to_tsns};
ghost use Rattle.sctp_receive_result.specs.Result.{told, done};
ghost use Rattle.sctp_receive_values.specs.Fields.{chunk_from, values_from, found_from};
ghost use Rattle.sctp_receive_counts.specs.States.{tsn_counts, tsns_from, handed_from};

use data_fields::ChunkPayloadData;
use payload_queue::{Counts, LOG, PayloadQueue, WORDS};
use sctp_receive_counts::{of_counts, put_counts};

// A fresh queue; the table may hold anything.
#[unsafe(no_mangle)]
pub extern "C" fn sctp_receive_payload_queue_new(
    count: &mut usize,
    n_bytes: &mut usize,
    dups: &mut usize,
    dup_tsn: &mut [u32; LOG],
)
    ensures { tsn_counts count.new n_bytes.new dups.new dup_tsn.new ≡ fresh }
{
    let queue = PayloadQueue::new();
    put_counts(queue, count, n_bytes, dups);
    let log = queue.counts.dup_tsn;
    *dup_tsn = log;
}

// Whether the TSN is neither held nor at or before the cumulative one.
#[unsafe(no_mangle)]
pub extern "C" fn sctp_receive_payload_queue_can_push(
    count: usize,
    n_bytes: usize,
    dups: usize,
    dup_tsn: &[u32; LOG],
    table: &[u32; WORDS],
    tsn: u32,
    cumulative: u32,
    is: &mut bool,
) -> i32
    ensures { told result is.new ≡ can_push (tsns_from count n_bytes dups dup_tsn.now table.now) tsn cumulative }
{
    let queue = of_counts(count, n_bytes, dups);
    let answer = queue.can_push(table, tsn, cumulative);
    sctp_receive_answers::flag(answer, is)
}

// Stores the chunk by its TSN: true; or logs its TSN where it is held or old: false. 17, ahead of these, where it is opposite to the
// cumulative one; 8 where no room is left.
#[unsafe(no_mangle)]
pub extern "C" fn sctp_receive_payload_queue_push(
    count: &mut usize,
    n_bytes: &mut usize,
    dups: &mut usize,
    dup_tsn: &mut [u32; LOG],
    table: &mut [u32; WORDS],
    unordered: bool,
    beginning_fragment: bool,
    ending_fragment: bool,
    immediate_sack: bool,
    tsn: u32,
    stream_identifier: u16,
    stream_sequence_number: u16,
    payload_type: u32,
    size: u16,
    cumulative: u32,
    is: &mut bool,
) -> i32
    ensures { after (told result is.new) (tsns_from count.new n_bytes.new dups.new dup_tsn.new table.new) ≡ pushed (tsns_from count.old n_bytes.old dups.old dup_tsn.old table.old) (row_of (chunk_from unordered beginning_fragment ending_fragment immediate_sack tsn stream_identifier stream_sequence_number payload_type) size) cumulative }
{
    let chunk = ChunkPayloadData {
        unordered,
        beginning_fragment,
        ending_fragment,
        immediate_sack,
        tsn,
        stream_identifier,
        stream_sequence_number,
        payload_type,
    };
    sctp_receive_tsns::push(
        count, n_bytes, dups, dup_tsn, table, chunk, size, cumulative, is,
    )
}

// Removes and gives the first chunk, if its TSN is this one; else nothing is found, and nothing changes.
#[unsafe(no_mangle)]
pub extern "C" fn sctp_receive_payload_queue_pop(
    count: &mut usize,
    n_bytes: &mut usize,
    dups: &mut usize,
    dup_tsn: &mut [u32; LOG],
    table: &mut [u32; WORDS],
    wanted: u32,
    found: &mut bool,
    unordered: &mut bool,
    beginning_fragment: &mut bool,
    ending_fragment: &mut bool,
    immediate_sack: &mut bool,
    tsn: &mut u32,
    stream_identifier: &mut u16,
    stream_sequence_number: &mut u16,
    payload_type: &mut u32,
    size: &mut u16,
) -> i32
    ensures { after (told result (found_from found.new (values_from unordered.new beginning_fragment.new ending_fragment.new immediate_sack.new tsn.new stream_identifier.new stream_sequence_number.new payload_type.new) size.new)) (tsns_from count.new n_bytes.new dups.new dup_tsn.new table.new) ≡ popped (tsns_from count.old n_bytes.old dups.old dup_tsn.old table.old) wanted }
{
    let mut queue = of_counts(*count, *n_bytes, *dups);
    let answer = queue.pop(table, wanted);
    put_counts(queue, count, n_bytes, dups);
    let given = sctp_receive_answers::taken(answer);
    let chunk = given.chunk;
    *found = given.found;
    *unordered = chunk.unordered;
    *beginning_fragment = chunk.beginning_fragment;
    *ending_fragment = chunk.ending_fragment;
    *immediate_sack = chunk.immediate_sack;
    *tsn = chunk.tsn;
    *stream_identifier = chunk.stream_identifier;
    *stream_sequence_number = chunk.stream_sequence_number;
    *payload_type = chunk.payload_type;
    *size = given.size;
    given.code
}

// Drops every TSN at or before this one.
#[unsafe(no_mangle)]
pub extern "C" fn sctp_receive_payload_queue_pop_up_to(
    count: &mut usize,
    n_bytes: &mut usize,
    dups: &mut usize,
    dup_tsn: &mut [u32; LOG],
    table: &mut [u32; WORDS],
    tsn: u32,
) -> i32
    ensures { after (done result) (tsns_from count.new n_bytes.new dups.new dup_tsn.new table.new) ≡ popped_up_to (tsns_from count.old n_bytes.old dups.old dup_tsn.old table.old) tsn }
{
    let mut queue = of_counts(*count, *n_bytes, *dups);
    let answer = queue.pop_up_to(table, tsn);
    put_counts(queue, count, n_bytes, dups);
    match answer {
        Ok(()) => -1,
        Err(e) => sctp_receive_result::refused(e),
    }
}

// Applies a FORWARD TSN chunk: drops every TSN at or before its new cumulative one; nothing where that is at or before the cumulative one.
#[unsafe(no_mangle)]
pub extern "C" fn sctp_receive_forward_tsn_apply_to_tsns(
    count: &mut usize,
    n_bytes: &mut usize,
    dups: &mut usize,
    dup_tsn: &mut [u32; LOG],
    table: &mut [u32; WORDS],
    cumulative_tsn: u32,
    new_cumulative_tsn: u32,
) -> i32
    ensures { after (done result) (tsns_from count.new n_bytes.new dups.new dup_tsn.new table.new) ≡ applied_to_tsns (tsns_from count.old n_bytes.old dups.old dup_tsn.old table.old) cumulative_tsn new_cumulative_tsn }
{
    sctp_receive_forward_drops::apply_to_tsns(
        count,
        n_bytes,
        dups,
        dup_tsn,
        table,
        cumulative_tsn,
        new_cumulative_tsn,
    )
}

// Hands out the log of duplicates, all 64 places, unused ones 0, with its count, and empties it.
#[unsafe(no_mangle)]
pub extern "C" fn sctp_receive_payload_queue_pop_duplicates(
    count: &mut usize,
    n_bytes: &mut usize,
    dups: &mut usize,
    dup_tsn: &mut [u32; LOG],
    table: &[u32; WORDS],
    n: &mut usize,
    tsns: &mut [u32; LOG],
) -> i32
    ensures { after (told result (handed_from n.new tsns.new)) (tsns_from count.new n_bytes.new dups.new dup_tsn.new table.now) ≡ popped_duplicates (tsns_from count.old n_bytes.old dups.old dup_tsn.old table.now) }
{
    let mut queue = PayloadQueue {
        counts: Counts {
            count: *count,
            n_bytes: *n_bytes,
            dups: *dups,
            dup_tsn: *dup_tsn,
        },
    };
    let answer = queue.pop_duplicates(table);
    put_counts(queue, count, n_bytes, dups);
    let log = queue.counts.dup_tsn;
    *dup_tsn = log;
    match answer {
        Ok(handed) => {
            *n = handed.count;
            let places = handed.tsns;
            *tsns = places;
            -1
        }
        Err(e) => {
            *n = 0;
            *tsns = [0u32; LOG];
            sctp_receive_result::refused(e)
        }
    }
}
