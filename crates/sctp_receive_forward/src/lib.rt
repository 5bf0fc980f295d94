// What the C calls are made of that apply a FORWARD TSN chunk: the queue of the fields that C keeps goes through the call below.
#![tactic(auto)]

ghost use Rattle.std.specs.Prelude.{◌≡◌};
ghost use Rattle.reassembly_state.specs.State.{after};
ghost use Rattle.reassembly_state.specs.Answers.{done_told};
ghost use Rattle.forward_tsn.specs.Applied.{Pairs, applied_to_stream};
ghost use Rattle.sctp_receive_model.specs.States.{state_from};

use reassembly_queue::{ReassemblyQueue, WORDS};
use reassembly_state::Counts;
use refusal::Refusal;

// The ordered skip for each pair that names the stream, then one unordered skip; nothing where the new cumulative TSN is at or before the cumulative one.
pub fn apply_to_stream(
    si: &mut u16,
    next_ssn: &mut u16,
    max_message_size: &mut u32,
    finished: &mut usize,
    unordered: &mut usize,
    ordered: &mut usize,
    n_bytes: &mut usize,
    table: &mut [u32; WORDS],
    pool: &mut [u8],
    cumulative_tsn: u32,
    new_cumulative_tsn: u32,
    streams: &[u8],
) -> Result<(), Refusal>
    ensures { (f : Pairs streams.now) → after (done_told result) (state_from si.new next_ssn.new max_message_size.new finished.new unordered.new ordered.new n_bytes.new table.new pool.new) ≡ applied_to_stream (state_from si.old next_ssn.old max_message_size.old finished.old unordered.old ordered.old n_bytes.old table.old pool.old) cumulative_tsn new_cumulative_tsn f.streams f.ssns }
{
    let mut queue = ReassemblyQueue {
        counts: Counts {
            si: *si,
            next_ssn: *next_ssn,
            max_message_size: *max_message_size,
            finished: *finished,
            unordered: *unordered,
            ordered: *ordered,
            n_bytes: *n_bytes,
        },
    };
    let answer = forward_tsn::apply_to_stream(
        &mut queue,
        table,
        pool,
        cumulative_tsn,
        new_cumulative_tsn,
        streams,
    );
    let left = queue.counts;
    *si = left.si;
    *next_ssn = left.next_ssn;
    *max_message_size = left.max_message_size;
    *finished = left.finished;
    *unordered = left.unordered;
    *ordered = left.ordered;
    *n_bytes = left.n_bytes;
    answer
}
