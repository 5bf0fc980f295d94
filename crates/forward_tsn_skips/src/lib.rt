// The ordered skips of a FORWARD TSN chunk (RFC 3758 section 3.6): one for each pair of a part that names the stream.
#![tactic(auto)]

ghost use Rattle.std.specs.Prelude.{◌≡◌, ◌/◌, ◌<◌, length};
ghost use Rattle.chunk_forward_tsn.specs.Layout.{pair};
ghost use Rattle.chunk_forward_tsn.specs.ForwardTsn.{PairFront};
ghost use Rattle.reassembly_queue.specs.Queue.{state_of};
ghost use Rattle.forward_tsn_skips.specs.Skips.{Pairs, pair_skipped, pairs_skipped};

use reassembly_queue::ReassemblyQueue;

// The ordered skip of one pair, if it names this stream. What a skip refuses changes nothing, and is not told.
fn skip_pair(
    queue: &mut ReassemblyQueue,
    table: &mut [u32; reassembly_queue::WORDS],
    pool: &mut [u8],
    identifier: u16,
    sequence: u16,
)
    ensures { state_of queue.new table.new pool.new ≡ pair_skipped (state_of queue.old table.old pool.old) (pair identifier sequence) }
{
    if identifier == queue.counts.si {
        let _ = queue.forward_tsn_for_ordered(table, pool, sequence);
    }
}

// The same for the pair at an index of a part.
fn skip_at(
    queue: &mut ReassemblyQueue,
    table: &mut [u32; reassembly_queue::WORDS],
    pool: &mut [u8],
    part: &[u8],
    i: usize,
)
    requires { i < length part.now / 4 }
    ensures { (f : PairFront part.now i) → state_of queue.new table.new pool.new ≡ pair_skipped (state_of queue.old table.old pool.old) f.fields }
{
    match chunk_forward_tsn::stream_at(part, i) {
        Ok(s) => skip_pair(queue, table, pool, s.identifier, s.sequence),
        Err(_) => {}
    }
}

// The same for all pairs of a part, in its order.
pub fn skip_pairs(
    queue: &mut ReassemblyQueue,
    table: &mut [u32; reassembly_queue::WORDS],
    pool: &mut [u8],
    part: &[u8],
)
    ensures { (f : Pairs part.now) → state_of queue.new table.new pool.new ≡ pairs_skipped (state_of queue.old table.old pool.old) f.streams f.ssns }
{
    for i in 0..part.len() / 4 {
        skip_at(queue, table, pool, part, i);
    }
}
