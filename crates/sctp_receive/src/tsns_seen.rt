// The TSN queue's calls that change nothing: its counts come by value. Refusal 0 as in tsns.rt.
ghost use Rattle.std.specs.Prelude.{◌≡◌};
ghost use Rattle.payload_model.specs.Queue.{got, contains_stream, counted, is_empty, num_bytes, last_tsn};
ghost use Rattle.payload_model.specs.GapCall.{lists, gap_report};
ghost use Rattle.sctp_receive_result.specs.Result.{told};
ghost use Rattle.sctp_receive_values.specs.Fields.{values_from, found_from};
ghost use Rattle.sctp_receive_counts.specs.States.{tsns_from, last_from};

use payload_queue::{LOG, WORDS};

// The chunk that is held with this TSN, if there is one.
#[unsafe(no_mangle)]
pub extern "C" fn sctp_receive_payload_queue_get(
    count: usize,
    n_bytes: usize,
    dups: usize,
    dup_tsn: &[u32; LOG],
    table: &[u32; WORDS],
    wanted: u32,
    found: &mut bool,
    unordered: &mut bool,
    beginning_fragment: &mut bool,
    ending_fragment: &mut bool,
    immediate_sack: &mut bool,
    tsn: &mut u32,
    stream_identifier: &mut u16,
    stream_sequence_number: &mut u16,
    payload_type: &mut u32,
    size: &mut u16,
) -> i32
    ensures { told result (found_from found.new (values_from unordered.new beginning_fragment.new ending_fragment.new immediate_sack.new tsn.new stream_identifier.new stream_sequence_number.new payload_type.new) size.new) ≡ got (tsns_from count n_bytes dups dup_tsn.now table.now) wanted }
{
    let queue = sctp_receive_counts::of_counts(count, n_bytes, dups);
    let answer = queue.get(table, wanted);
    let given = sctp_receive_answers::taken(answer);
    let chunk = given.chunk;
    *found = given.found;
    *unordered = chunk.unordered;
    *beginning_fragment = chunk.beginning_fragment;
    *ending_fragment = chunk.ending_fragment;
    *immediate_sack = chunk.immediate_sack;
    *tsn = chunk.tsn;
    *stream_identifier = chunk.stream_identifier;
    *stream_sequence_number = chunk.stream_sequence_number;
    *payload_type = chunk.payload_type;
    *size = given.size;
    given.code
}

// The gap report: starts and ends of its blocks go to the front of the lent lists, and n is their count; 10 where a list is too short.
#[unsafe(no_mangle)]
pub extern "C" fn sctp_receive_payload_queue_get_gap_ack_blocks(
    count: usize,
    n_bytes: usize,
    dups: usize,
    dup_tsn: &[u32; LOG],
    table: &[u32; WORDS],
    cumulative: u32,
    starts: &mut [u16],
    ends: &mut [u16],
    n: &mut usize,
) -> i32
    ensures { lists (told result n.new) starts.new ends.new ≡ gap_report (tsns_from count n_bytes dups dup_tsn.now table.now) cumulative starts.old ends.old }
{
    let queue = sctp_receive_counts::of_counts(count, n_bytes, dups);
    let answer = queue.get_gap_ack_blocks(table, cumulative, starts, ends);
    sctp_receive_result::counted(answer, n)
}

// The TSN that stands last, if there is one.
#[unsafe(no_mangle)]
pub extern "C" fn sctp_receive_payload_queue_get_last_tsn_received(
    count: usize,
    n_bytes: usize,
    dups: usize,
    dup_tsn: &[u32; LOG],
    table: &[u32; WORDS],
    found: &mut bool,
    tsn: &mut u32,
) -> i32
    ensures { told result (last_from found.new tsn.new) ≡ last_tsn (tsns_from count n_bytes dups dup_tsn.now table.now) }
{
    *found = false;
    *tsn = 0;
    let queue = sctp_receive_counts::of_counts(count, n_bytes, dups);
    match queue.get_last_tsn_received(table) {
        Ok(Some(t)) => {
            *found = true;
            *tsn = t;
            -1
        }
        Ok(None) => -1,
        Err(e) => sctp_receive_result::refused(e),
    }
}

// The sum of the held data lengths.
#[unsafe(no_mangle)]
pub extern "C" fn sctp_receive_payload_queue_get_num_bytes(
    count: usize,
    n_bytes: usize,
    dups: usize,
    dup_tsn: &[u32; LOG],
    table: &[u32; WORDS],
    n: &mut usize,
) -> i32
    ensures { told result n.new ≡ num_bytes (tsns_from count n_bytes dups dup_tsn.now table.now) }
{
    let queue = sctp_receive_counts::of_counts(count, n_bytes, dups);
    let answer = queue.get_num_bytes(table);
    sctp_receive_result::counted(answer, n)
}

// How many TSNs are held.
#[unsafe(no_mangle)]
pub extern "C" fn sctp_receive_payload_queue_len(
    count: usize,
    n_bytes: usize,
    dups: usize,
    dup_tsn: &[u32; LOG],
    table: &[u32; WORDS],
    n: &mut usize,
) -> i32
    ensures { told result n.new ≡ counted (tsns_from count n_bytes dups dup_tsn.now table.now) }
{
    let queue = sctp_receive_counts::of_counts(count, n_bytes, dups);
    let answer = queue.len(table);
    sctp_receive_result::counted(answer, n)
}

// Whether none is held.
#[unsafe(no_mangle)]
pub extern "C" fn sctp_receive_payload_queue_is_empty(
    count: usize,
    n_bytes: usize,
    dups: usize,
    dup_tsn: &[u32; LOG],
    table: &[u32; WORDS],
    is: &mut bool,
) -> i32
    ensures { told result is.new ≡ is_empty (tsns_from count n_bytes dups dup_tsn.now table.now) }
{
    let queue = sctp_receive_counts::of_counts(count, n_bytes, dups);
    let answer = queue.is_empty(table);
    sctp_receive_answers::flag(answer, is)
}

// Whether a chunk of this stream is held.
#[unsafe(no_mangle)]
pub extern "C" fn sctp_receive_payload_queue_contains_stream(
    count: usize,
    n_bytes: usize,
    dups: usize,
    dup_tsn: &[u32; LOG],
    table: &[u32; WORDS],
    stream: u16,
    is: &mut bool,
) -> i32
    ensures { told result is.new ≡ contains_stream (tsns_from count n_bytes dups dup_tsn.now table.now) stream }
{
    let queue = sctp_receive_counts::of_counts(count, n_bytes, dups);
    let answer = queue.contains_stream(table, stream);
    sctp_receive_answers::flag(answer, is)
}
