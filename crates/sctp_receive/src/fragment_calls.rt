// Reassembly of one stream. C keeps the queue's numbers, each by itself, and lends the table of 2,048 words and the pool of at least 65,536 bytes to every call.
// Refusal 0, before every other answer: a count above its table, a pool shorter than its limit, a place outside the pool, or a byte count that is not the sum of
// the held lengths. Out values are 0 and false beside a refusal.
ghost use Rattle.std.specs.Prelude.{◌≡◌};
ghost use Rattle.reassembly_state.specs.State.{after, pushed, is_readable, reads, read, forward_ordered, forward_unordered, num_bytes};
ghost use Rattle.reassembly_queue.specs.Queue.{fresh};
ghost use Rattle.forward_tsn.specs.Applied.{Pairs, applied_to_stream};
ghost use Rattle.sctp_receive_result.specs.Result.{told, done};
ghost use Rattle.sctp_receive_values.specs.Fields.{chunk_from};
ghost use Rattle.sctp_receive_model.specs.States.{fragment_counts, state_from, message_from};

use data_fields::ChunkPayloadData;
use reassembly_queue::{ReassemblyQueue, WORDS};
use reassembly_state::Counts;

// A fresh queue of a stream; the table and the pool may hold anything.
#[unsafe(no_mangle)]
pub extern "C" fn sctp_receive_reassembly_queue_new(
    stream: u16,
    most: u32,
    si: &mut u16,
    next_ssn: &mut u16,
    max_message_size: &mut u32,
    finished: &mut usize,
    unordered: &mut usize,
    ordered: &mut usize,
    n_bytes: &mut usize,
)
    ensures { fragment_counts si.new next_ssn.new max_message_size.new finished.new unordered.new ordered.new n_bytes.new ≡ fresh stream most }
{
    let left = ReassemblyQueue::new(stream, most).counts;
    *si = left.si;
    *next_ssn = left.next_ssn;
    *max_message_size = left.max_message_size;
    *finished = left.finished;
    *unordered = left.unordered;
    *ordered = left.ordered;
    *n_bytes = left.n_bytes;
}

// Stores the chunk with its user data: true where that completes a message. False where it is of another stream, old, or there already;
// 6 where the message would be too large; 8 where no room is left.
#[unsafe(no_mangle)]
pub extern "C" fn sctp_receive_reassembly_queue_push(
    si: &mut u16,
    next_ssn: &mut u16,
    max_message_size: &mut u32,
    finished: &mut usize,
    unordered: &mut usize,
    ordered: &mut usize,
    n_bytes: &mut usize,
    table: &mut [u32; WORDS],
    pool: &mut [u8],
    is_unordered: bool,
    beginning_fragment: bool,
    ending_fragment: bool,
    immediate_sack: bool,
    tsn: u32,
    stream_identifier: u16,
    stream_sequence_number: u16,
    payload_type: u32,
    user_data: &[u8],
    is: &mut bool,
) -> i32
    ensures { after (told result is.new) (state_from si.new next_ssn.new max_message_size.new finished.new unordered.new ordered.new n_bytes.new table.new pool.new) ≡ pushed (state_from si.old next_ssn.old max_message_size.old finished.old unordered.old ordered.old n_bytes.old table.old pool.old) (chunk_from is_unordered beginning_fragment ending_fragment immediate_sack tsn stream_identifier stream_sequence_number payload_type) user_data.now }
{
    let mut queue = ReassemblyQueue {
        counts: Counts {
            si: *si,
            next_ssn: *next_ssn,
            max_message_size: *max_message_size,
            finished: *finished,
            unordered: *unordered,
            ordered: *ordered,
            n_bytes: *n_bytes,
        },
    };
    let chunk = ChunkPayloadData {
        unordered: is_unordered,
        beginning_fragment,
        ending_fragment,
        immediate_sack,
        tsn,
        stream_identifier,
        stream_sequence_number,
        payload_type,
    };
    let answer = queue.push(table, pool, chunk, user_data);
    let left = queue.counts;
    *si = left.si;
    *next_ssn = left.next_ssn;
    *max_message_size = left.max_message_size;
    *finished = left.finished;
    *unordered = left.unordered;
    *ordered = left.ordered;
    *n_bytes = left.n_bytes;
    sctp_receive_hand::flag(answer, is)
}

// Whether a message can be taken.
#[unsafe(no_mangle)]
pub extern "C" fn sctp_receive_reassembly_queue_is_readable(
    si: u16,
    next_ssn: u16,
    max_message_size: u32,
    finished: usize,
    unordered: usize,
    ordered: usize,
    n_bytes: usize,
    table: &[u32; WORDS],
    pool: &[u8],
    is: &mut bool,
) -> i32
    ensures { told result is.new ≡ is_readable (state_from si next_ssn max_message_size finished unordered ordered n_bytes table.now pool.now) }
{
    let queue = ReassemblyQueue {
        counts: Counts {
            si,
            next_ssn,
            max_message_size,
            finished,
            unordered,
            ordered,
            n_bytes,
        },
    };
    let answer = queue.is_readable(table, pool);
    sctp_receive_hand::flag(answer, is)
}

// Takes the oldest finished unordered message, else the first ordered set if it is complete and not after the expected one, to the front
// of the lent buffer, if there is one; 10 where the buffer is too short.
#[unsafe(no_mangle)]
pub extern "C" fn sctp_receive_reassembly_queue_read(
    si: &mut u16,
    next_ssn: &mut u16,
    max_message_size: &mut u32,
    finished: &mut usize,
    unordered: &mut usize,
    ordered: &mut usize,
    n_bytes: &mut usize,
    table: &mut [u32; WORDS],
    pool: &mut [u8],
    buffer: &mut [u8],
    found: &mut bool,
    ssn: &mut u16,
    ppi: &mut u32,
    bytes: &mut usize,
    position: &mut usize,
    given: &mut bool,
) -> i32
    ensures { reads (told result (message_from found.new ssn.new ppi.new bytes.new position.new given.new)) (state_from si.new next_ssn.new max_message_size.new finished.new unordered.new ordered.new n_bytes.new table.new pool.new) buffer.new ≡ read (state_from si.old next_ssn.old max_message_size.old finished.old unordered.old ordered.old n_bytes.old table.old pool.old) buffer.old }
{
    let mut queue = ReassemblyQueue {
        counts: Counts {
            si: *si,
            next_ssn: *next_ssn,
            max_message_size: *max_message_size,
            finished: *finished,
            unordered: *unordered,
            ordered: *ordered,
            n_bytes: *n_bytes,
        },
    };
    let answer = queue.read(table, pool, buffer);
    let left = sctp_receive_fragments::taken(queue, answer);
    *si = left.si;
    *next_ssn = left.next_ssn;
    *max_message_size = left.max_message_size;
    *finished = left.finished;
    *unordered = left.unordered;
    *ordered = left.ordered;
    *n_bytes = left.n_bytes;
    *found = left.found;
    *ssn = left.ssn;
    *ppi = left.ppi;
    *bytes = left.bytes;
    *position = left.position;
    *given = left.given;
    left.code
}

// Drops incomplete sets at or before an SSN, and expects the one after it.
#[unsafe(no_mangle)]
pub extern "C" fn sctp_receive_reassembly_queue_forward_tsn_for_ordered(
    si: &mut u16,
    next_ssn: &mut u16,
    max_message_size: &mut u32,
    finished: &mut usize,
    unordered: &mut usize,
    ordered: &mut usize,
    n_bytes: &mut usize,
    table: &mut [u32; WORDS],
    pool: &mut [u8],
    last_ssn: u16,
) -> i32
    ensures { after (done result) (state_from si.new next_ssn.new max_message_size.new finished.new unordered.new ordered.new n_bytes.new table.new pool.new) ≡ forward_ordered (state_from si.old next_ssn.old max_message_size.old finished.old unordered.old ordered.old n_bytes.old table.old pool.old) last_ssn }
{
    let mut queue = ReassemblyQueue {
        counts: Counts {
            si: *si,
            next_ssn: *next_ssn,
            max_message_size: *max_message_size,
            finished: *finished,
            unordered: *unordered,
            ordered: *ordered,
            n_bytes: *n_bytes,
        },
    };
    let answer = queue.forward_tsn_for_ordered(table, pool, last_ssn);
    let left = queue.counts;
    *si = left.si;
    *next_ssn = left.next_ssn;
    *max_message_size = left.max_message_size;
    *finished = left.finished;
    *unordered = left.unordered;
    *ordered = left.ordered;
    *n_bytes = left.n_bytes;
    sctp_receive_model::fragment_answers::forwarded(answer)
}

// Drops loose unordered fragments from the front up to the first one after a TSN.
#[unsafe(no_mangle)]
pub extern "C" fn sctp_receive_reassembly_queue_forward_tsn_for_unordered(
    si: &mut u16,
    next_ssn: &mut u16,
    max_message_size: &mut u32,
    finished: &mut usize,
    unordered: &mut usize,
    ordered: &mut usize,
    n_bytes: &mut usize,
    table: &mut [u32; WORDS],
    pool: &mut [u8],
    new_cumulative_tsn: u32,
) -> i32
    ensures { after (done result) (state_from si.new next_ssn.new max_message_size.new finished.new unordered.new ordered.new n_bytes.new table.new pool.new) ≡ forward_unordered (state_from si.old next_ssn.old max_message_size.old finished.old unordered.old ordered.old n_bytes.old table.old pool.old) new_cumulative_tsn }
{
    let mut queue = ReassemblyQueue {
        counts: Counts {
            si: *si,
            next_ssn: *next_ssn,
            max_message_size: *max_message_size,
            finished: *finished,
            unordered: *unordered,
            ordered: *ordered,
            n_bytes: *n_bytes,
        },
    };
    let answer = queue.forward_tsn_for_unordered(table, pool, new_cumulative_tsn);
    let left = queue.counts;
    *si = left.si;
    *next_ssn = left.next_ssn;
    *max_message_size = left.max_message_size;
    *finished = left.finished;
    *unordered = left.unordered;
    *ordered = left.ordered;
    *n_bytes = left.n_bytes;
    sctp_receive_model::fragment_answers::forwarded(answer)
}

// Applies a FORWARD TSN chunk: the ordered skip for each pair of its part that names the stream, in their order, then one unordered skip;
// nothing where its new cumulative TSN is at or before the cumulative one.
#[unsafe(no_mangle)]
pub extern "C" fn sctp_receive_forward_tsn_apply_to_stream(
    si: &mut u16,
    next_ssn: &mut u16,
    max_message_size: &mut u32,
    finished: &mut usize,
    unordered: &mut usize,
    ordered: &mut usize,
    n_bytes: &mut usize,
    table: &mut [u32; WORDS],
    pool: &mut [u8],
    cumulative_tsn: u32,
    new_cumulative_tsn: u32,
    streams: &[u8],
) -> i32
    ensures { (f : Pairs streams.now) → after (done result) (state_from si.new next_ssn.new max_message_size.new finished.new unordered.new ordered.new n_bytes.new table.new pool.new) ≡ applied_to_stream (state_from si.old next_ssn.old max_message_size.old finished.old unordered.old ordered.old n_bytes.old table.old pool.old) cumulative_tsn new_cumulative_tsn f.streams f.ssns }
{
    let answer = sctp_receive_forward::apply_to_stream(
        si,
        next_ssn,
        max_message_size,
        finished,
        unordered,
        ordered,
        n_bytes,
        table,
        pool,
        cumulative_tsn,
        new_cumulative_tsn,
        streams,
    );
    sctp_receive_model::fragment_answers::forwarded(answer)
}

// The number of bytes held.
#[unsafe(no_mangle)]
pub extern "C" fn sctp_receive_reassembly_queue_get_num_bytes(
    si: u16,
    next_ssn: u16,
    max_message_size: u32,
    finished: usize,
    unordered: usize,
    ordered: usize,
    n_bytes: usize,
    table: &[u32; WORDS],
    pool: &[u8],
    n: &mut usize,
) -> i32
    ensures { told result n.new ≡ num_bytes (state_from si next_ssn max_message_size finished unordered ordered n_bytes table.now pool.now) }
{
    let queue = ReassemblyQueue {
        counts: Counts {
            si,
            next_ssn,
            max_message_size,
            finished,
            unordered,
            ordered,
            n_bytes,
        },
    };
    let answer = queue.get_num_bytes(table, pool);
    sctp_receive_result::counted(answer, n)
}
