// The sender's in-flight queue. C keeps its two counts, each by itself, and lends the table of 4,096 words to every call, and the 1,024 numbers of messages to those that
// need them; a call that changes them takes each by reference. Refusal 0, before every other answer: a count above its table, or a byte count that is not the sum of the
// lengths that are not released. Out values are 0 and false beside a refusal.
ghost use Rattle.std.specs.Prelude.{◌≡◌, List, ℕ};
ghost use Rattle.payload_model.specs.Queue.{row_of};
ghost use Rattle.inflight_model.specs.Queue.{after, pushed_no_check, marked_acked, marked_all, abandoned, popped, popped_up_to, got, counted, is_empty, num_bytes};
ghost use Rattle.inflight_queue.specs.Queue.{fresh};
ghost use Rattle.sctp_receive_result.specs.Result.{told, done};
ghost use Rattle.sctp_receive_values.specs.Fields.{chunk_from, values_from, found_from};
ghost use Rattle.sctp_receive_inflight.specs.InFlight.{flight_counts, flight_from, given_from};

use data_fields::ChunkPayloadData;
use inflight_queue::{InFlightQueue, TSNS, WORDS};

// A fresh queue; the table and the numbers may hold anything.
#[unsafe(no_mangle)]
pub extern "C" fn sctp_receive_inflight_queue_new(count: &mut usize, n_bytes: &mut usize)
    ensures { flight_counts count.new n_bytes.new ≡ fresh }
{
    let queue = InFlightQueue::new();
    *count = queue.counts.count;
    *n_bytes = queue.counts.n_bytes;
}

// Stores the chunk by its TSN, without a mark, and the number of its message beside it; 18 where the TSN is held, 8 where no room is left.
#[unsafe(no_mangle)]
pub extern "C" fn sctp_receive_inflight_queue_push_no_check(
    count: &mut usize,
    n_bytes: &mut usize,
    table: &mut [u32; WORDS],
    messages: &mut [u64; TSNS],
    unordered: bool,
    beginning_fragment: bool,
    ending_fragment: bool,
    immediate_sack: bool,
    tsn: u32,
    stream_identifier: u16,
    stream_sequence_number: u16,
    payload_type: u32,
    size: u16,
    message: u64,
) -> i32
    ensures { after (done result) (flight_from count.new n_bytes.new table.new messages.new) ≡ pushed_no_check (flight_from count.old n_bytes.old table.old messages.old) (row_of (chunk_from unordered beginning_fragment ending_fragment immediate_sack tsn stream_identifier stream_sequence_number payload_type) size) message }
{
    let chunk = ChunkPayloadData {
        unordered,
        beginning_fragment,
        ending_fragment,
        immediate_sack,
        tsn,
        stream_identifier,
        stream_sequence_number,
        payload_type,
    };
    sctp_receive_inflight::push_no_check(count, n_bytes, table, messages, chunk, size, message)
}

// Acknowledges the chunk with this TSN, and releases its bytes: as many as it still held; 0 where none is held with this TSN.
#[unsafe(no_mangle)]
pub extern "C" fn sctp_receive_inflight_queue_mark_as_acked(
    count: &mut usize,
    n_bytes: &mut usize,
    table: &mut [u32; WORDS],
    tsn: u32,
    released: &mut usize,
) -> i32
    ensures { (ms : List ℕ) → after (told result released.new) (flight_from count.new n_bytes.new table.new ms) ≡ marked_acked (flight_from count.old n_bytes.old table.old ms) tsn }
{
    let mut queue = sctp_receive_flight::queue(*count, *n_bytes);
    let answer = queue.mark_as_acked(table, tsn);
    *count = queue.counts.count;
    *n_bytes = queue.counts.n_bytes;
    sctp_receive_result::counted(answer, released)
}

// Marks every chunk to be sent again that is neither acknowledged nor abandoned.
#[unsafe(no_mangle)]
pub extern "C" fn sctp_receive_inflight_queue_mark_all_to_retransmit(
    count: &mut usize,
    n_bytes: &mut usize,
    table: &mut [u32; WORDS],
) -> i32
    ensures { (ms : List ℕ) → after (done result) (flight_from count.new n_bytes.new table.new ms) ≡ marked_all (flight_from count.old n_bytes.old table.old ms) }
{
    let queue = sctp_receive_flight::queue(*count, *n_bytes);
    sctp_receive_flight::done(queue.mark_all_to_retransmit(table))
}

// Abandons every chunk of this message, and releases their bytes: as many as they still held.
#[unsafe(no_mangle)]
pub extern "C" fn sctp_receive_inflight_queue_abandon_message(
    count: &mut usize,
    n_bytes: &mut usize,
    table: &mut [u32; WORDS],
    messages: &[u64; TSNS],
    message: u64,
    released: &mut usize,
) -> i32
    ensures { after (told result released.new) (flight_from count.new n_bytes.new table.new messages.now) ≡ abandoned (flight_from count.old n_bytes.old table.old messages.now) message }
{
    let mut queue = sctp_receive_flight::queue(*count, *n_bytes);
    let answer = queue.abandon_message(table, messages, message);
    *count = queue.counts.count;
    *n_bytes = queue.counts.n_bytes;
    sctp_receive_result::counted(answer, released)
}

// Removes and gives the first chunk, if its TSN is this one; else nothing is found, and nothing changes.
#[unsafe(no_mangle)]
pub extern "C" fn sctp_receive_inflight_queue_pop(
    count: &mut usize,
    n_bytes: &mut usize,
    table: &mut [u32; WORDS],
    messages: &mut [u64; TSNS],
    wanted: u32,
    found: &mut bool,
    unordered: &mut bool,
    beginning_fragment: &mut bool,
    ending_fragment: &mut bool,
    immediate_sack: &mut bool,
    tsn: &mut u32,
    stream_identifier: &mut u16,
    stream_sequence_number: &mut u16,
    payload_type: &mut u32,
    size: &mut u16,
    acked: &mut bool,
    abandoned: &mut bool,
    retransmit: &mut bool,
    message_id: &mut u64,
) -> i32
    ensures { after (told result (given_from (found_from found.new (values_from unordered.new beginning_fragment.new ending_fragment.new immediate_sack.new tsn.new stream_identifier.new stream_sequence_number.new payload_type.new) size.new) acked.new abandoned.new retransmit.new message_id.new)) (flight_from count.new n_bytes.new table.new messages.new) ≡ popped (flight_from count.old n_bytes.old table.old messages.old) wanted }
{
    let mut queue = sctp_receive_flight::queue(*count, *n_bytes);
    let answer = queue.pop(table, messages, wanted);
    *count = queue.counts.count;
    *n_bytes = queue.counts.n_bytes;
    let given = sctp_receive_sent::sent(answer);
    let chunk = given.chunk;
    *found = given.found;
    *unordered = chunk.unordered;
    *beginning_fragment = chunk.beginning_fragment;
    *ending_fragment = chunk.ending_fragment;
    *immediate_sack = chunk.immediate_sack;
    *tsn = chunk.tsn;
    *stream_identifier = chunk.stream_identifier;
    *stream_sequence_number = chunk.stream_sequence_number;
    *payload_type = chunk.payload_type;
    *size = given.size;
    *acked = given.acked;
    *abandoned = given.abandoned;
    *retransmit = given.retransmit;
    *message_id = given.message_id;
    given.code
}

// Drops every TSN at or before this one.
#[unsafe(no_mangle)]
pub extern "C" fn sctp_receive_inflight_queue_pop_up_to(
    count: &mut usize,
    n_bytes: &mut usize,
    table: &mut [u32; WORDS],
    messages: &mut [u64; TSNS],
    tsn: u32,
) -> i32
    ensures { after (done result) (flight_from count.new n_bytes.new table.new messages.new) ≡ popped_up_to (flight_from count.old n_bytes.old table.old messages.old) tsn }
{
    let mut queue = sctp_receive_flight::queue(*count, *n_bytes);
    let answer = queue.pop_up_to(table, messages, tsn);
    *count = queue.counts.count;
    *n_bytes = queue.counts.n_bytes;
    sctp_receive_flight::done(answer)
}

// The chunk that is held with this TSN, if there is one.
#[unsafe(no_mangle)]
pub extern "C" fn sctp_receive_inflight_queue_get(
    count: usize,
    n_bytes: usize,
    table: &[u32; WORDS],
    messages: &[u64; TSNS],
    wanted: u32,
    found: &mut bool,
    unordered: &mut bool,
    beginning_fragment: &mut bool,
    ending_fragment: &mut bool,
    immediate_sack: &mut bool,
    tsn: &mut u32,
    stream_identifier: &mut u16,
    stream_sequence_number: &mut u16,
    payload_type: &mut u32,
    size: &mut u16,
    acked: &mut bool,
    abandoned: &mut bool,
    retransmit: &mut bool,
    message_id: &mut u64,
) -> i32
    ensures { told result (given_from (found_from found.new (values_from unordered.new beginning_fragment.new ending_fragment.new immediate_sack.new tsn.new stream_identifier.new stream_sequence_number.new payload_type.new) size.new) acked.new abandoned.new retransmit.new message_id.new) ≡ got (flight_from count n_bytes table.now messages.now) wanted }
{
    let queue = sctp_receive_flight::queue(count, n_bytes);
    let given = sctp_receive_sent::sent(queue.get(table, messages, wanted));
    let chunk = given.chunk;
    *found = given.found;
    *unordered = chunk.unordered;
    *beginning_fragment = chunk.beginning_fragment;
    *ending_fragment = chunk.ending_fragment;
    *immediate_sack = chunk.immediate_sack;
    *tsn = chunk.tsn;
    *stream_identifier = chunk.stream_identifier;
    *stream_sequence_number = chunk.stream_sequence_number;
    *payload_type = chunk.payload_type;
    *size = given.size;
    *acked = given.acked;
    *abandoned = given.abandoned;
    *retransmit = given.retransmit;
    *message_id = given.message_id;
    given.code
}

// The sum of the lengths that are not released.
#[unsafe(no_mangle)]
pub extern "C" fn sctp_receive_inflight_queue_get_num_bytes(
    count: usize,
    n_bytes: usize,
    table: &[u32; WORDS],
    n: &mut usize,
) -> i32
    ensures { (ms : List ℕ) → told result n.new ≡ num_bytes (flight_from count n_bytes table.now ms) }
{
    let queue = sctp_receive_flight::queue(count, n_bytes);
    sctp_receive_result::counted(queue.get_num_bytes(table), n)
}

// How many TSNs are held.
#[unsafe(no_mangle)]
pub extern "C" fn sctp_receive_inflight_queue_len(
    count: usize,
    n_bytes: usize,
    table: &[u32; WORDS],
    n: &mut usize,
) -> i32
    ensures { (ms : List ℕ) → told result n.new ≡ counted (flight_from count n_bytes table.now ms) }
{
    let queue = sctp_receive_flight::queue(count, n_bytes);
    sctp_receive_result::counted(queue.len(table), n)
}

// Whether none is held.
#[unsafe(no_mangle)]
pub extern "C" fn sctp_receive_inflight_queue_is_empty(
    count: usize,
    n_bytes: usize,
    table: &[u32; WORDS],
    is: &mut bool,
) -> i32
    ensures { (ms : List ℕ) → told result is.new ≡ is_empty (flight_from count n_bytes table.now ms) }
{
    let queue = sctp_receive_flight::queue(count, n_bytes);
    sctp_receive_answers::flag(queue.is_empty(table), is)
}
