// Looks at one of eight streams that change nothing: its byte count, and how far a skip held over its reset applies.
#![tactic(auto)]

ghost use Rattle.std.specs.Prelude.{◌≡◌};
ghost use Rattle.refusal.specs.Told.{count_told};
ghost use Rattle.reassembly_applicable.specs.Answers.{applicable_told};
ghost use Rattle.streams_model.specs.State.{state_of, num_bytes, applicable};

use reassembly_state::WORDS;
use refusal::Refusal;
use streams_model::{STREAMS, Streams};

// The number of bytes that a stream holds; 19 where there is no such stream.
pub fn get_num_bytes(
    streams: Streams,
    table: &[u32; WORDS],
    pool: &[u8],
    stream: u16,
) -> Result<usize, Refusal>
    ensures { count_told result ≡ num_bytes (state_of streams table.now pool.now) stream }
{
    if streams_counts::unsound(streams, table, pool) {
        return Err(Refusal::Unsound);
    }
    let number = stream as usize;
    if STREAMS <= number {
        return Err(Refusal::NoStream);
    }
    let own = streams.at(number);
    Ok(own.n_bytes)
}

// How far a skip of a stream applies; 19 where there is no such stream. The streams before it count as finished fragments of its queue, which no
// skip looks at.
pub fn applicable_forward_tsn_for_ordered_bounded(
    streams: Streams,
    table: &[u32; WORDS],
    pool: &[u8],
    stream: u16,
    last_ssn: u16,
    new_cumulative_tsn: u32,
    peer_last_tsn: u32,
) -> Result<Option<u16>, Refusal>
    ensures { applicable_told result ≡ applicable (state_of streams table.now pool.now) stream last_ssn new_cumulative_tsn peer_last_tsn }
{
    if streams_counts::unsound(streams, table, pool) {
        return Err(Refusal::Unsound);
    }
    let number = stream as usize;
    if STREAMS <= number {
        return Err(Refusal::NoStream);
    }
    let place = streams_parts::among_front(streams, number);
    Ok(reassembly_applicable::applies(
        place.queue,
        table,
        last_ssn,
        new_cumulative_tsn,
        peer_last_tsn,
    ))
}
