// Skips held over a stream reset, on a queue of crate `reassembly_queue` that C keeps as in fragment_calls.
ghost use Rattle.std.specs.Prelude.{◌≡◌};
ghost use Rattle.reassembly_state.specs.State.{after};
ghost use Rattle.reassembly_bounded.specs.Bounded.{forward_bounded};
ghost use Rattle.reassembly_applicable.specs.Applicable.{applicable};
ghost use Rattle.sctp_receive_result.specs.Result.{told, done};
ghost use Rattle.sctp_receive_model.specs.States.{state_from, found_from};

use reassembly_queue::{ReassemblyQueue, WORDS};
use reassembly_state::Counts;

// Drops incomplete sets at or before an SSN that a cumulative point reaches, and expects the first set that it does not reach, or the SSN after the last,
// where that is later than what is expected.
#[unsafe(no_mangle)]
pub extern "C" fn sctp_receive_reassembly_queue_forward_tsn_for_ordered_bounded(
    si: &mut u16,
    next_ssn: &mut u16,
    max_message_size: &mut u32,
    finished: &mut usize,
    unordered: &mut usize,
    ordered: &mut usize,
    n_bytes: &mut usize,
    table: &mut [u32; WORDS],
    pool: &mut [u8],
    last_ssn: u16,
    new_cumulative_tsn: u32,
) -> i32
    ensures { after (done result) (state_from si.new next_ssn.new max_message_size.new finished.new unordered.new ordered.new n_bytes.new table.new pool.new) ≡ forward_bounded (state_from si.old next_ssn.old max_message_size.old finished.old unordered.old ordered.old n_bytes.old table.old pool.old) last_ssn new_cumulative_tsn }
{
    let mut queue = ReassemblyQueue {
        counts: Counts {
            si: *si,
            next_ssn: *next_ssn,
            max_message_size: *max_message_size,
            finished: *finished,
            unordered: *unordered,
            ordered: *ordered,
            n_bytes: *n_bytes,
        },
    };
    let answer = queue.forward_tsn_for_ordered_bounded(table, pool, last_ssn, new_cumulative_tsn);
    let left = queue.counts;
    *si = left.si;
    *next_ssn = left.next_ssn;
    *max_message_size = left.max_message_size;
    *finished = left.finished;
    *unordered = left.unordered;
    *ordered = left.ordered;
    *n_bytes = left.n_bytes;
    sctp_receive_model::fragment_answers::forwarded(answer)
}

// The SSN up to which such a skip applies by now, if there is one: the last, or that of a set before it.
#[unsafe(no_mangle)]
pub extern "C" fn sctp_receive_reassembly_queue_applicable_forward_tsn_for_ordered_bounded(
    si: u16,
    next_ssn: u16,
    max_message_size: u32,
    finished: usize,
    unordered: usize,
    ordered: usize,
    n_bytes: usize,
    table: &[u32; WORDS],
    pool: &[u8],
    last_ssn: u16,
    new_cumulative_tsn: u32,
    peer_last_tsn: u32,
    found: &mut bool,
    ssn: &mut u16,
) -> i32
    ensures { told result (found_from found.new ssn.new) ≡ applicable (state_from si next_ssn max_message_size finished unordered ordered n_bytes table.now pool.now) last_ssn new_cumulative_tsn peer_last_tsn }
{
    let queue = ReassemblyQueue {
        counts: Counts {
            si,
            next_ssn,
            max_message_size,
            finished,
            unordered,
            ordered,
            n_bytes,
        },
    };
    let answer = queue.applicable_forward_tsn_for_ordered_bounded(
        table,
        pool,
        last_ssn,
        new_cumulative_tsn,
        peer_last_tsn,
    );
    sctp_receive_fragments::applicable(answer, found, ssn)
}
