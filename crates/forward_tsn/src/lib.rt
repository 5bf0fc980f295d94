// Applying a FORWARD TSN chunk (RFC 3758 section 3.6) to a stream and to the TSN queue: its new cumulative TSN, and the part that its streams
// and SSNs are. A new cumulative TSN at or before the cumulative one changes nothing.
#![tactic(auto)]

ghost use Rattle.std.specs.Prelude.{◌≡◌};
ghost use Rattle.reassembly_state.specs.State as stream;
ghost use Rattle.reassembly_state.specs.Answers as done;
ghost use Rattle.reassembly_queue.specs.Queue.{state_of};
ghost use Rattle.forward_tsn.specs.Applied.{Pairs, applied_to_stream};

pub use forward_tsn_drops::apply_to_tsns;
use forward_tsn_skips::skip_pairs;
use reassembly_queue::ReassemblyQueue;
use refusal::Refusal;

// The ordered skip for each pair that names the stream, then one unordered skip.
pub fn apply_to_stream(
    queue: &mut ReassemblyQueue,
    table: &mut [u32; reassembly_queue::WORDS],
    pool: &mut [u8],
    cumulative_tsn: u32,
    new_cumulative_tsn: u32,
    streams: &[u8],
) -> Result<(), Refusal>
    ensures { (f : Pairs streams.now) → stream.after (done.done_told result) (state_of queue.new table.new pool.new) ≡ applied_to_stream (state_of queue.old table.old pool.old) cumulative_tsn new_cumulative_tsn f.streams f.ssns }
{
    queue.get_num_bytes(table, pool)?;
    if serial_tsns::sna32lte(new_cumulative_tsn, cumulative_tsn) {
        return Ok(());
    }
    skip_pairs(queue, table, pool, streams);
    queue.forward_tsn_for_unordered(table, pool, new_cumulative_tsn)
}
