// Whether a message of one of eight streams can be read.
#![tactic(auto)]

ghost use Rattle.std.specs.Prelude.{◌≡◌};
ghost use Rattle.refusal.specs.Told.{flag_told};
ghost use Rattle.streams_model.specs.State.{state_of, is_readable};

use reassembly_state::WORDS;
use refusal::Refusal;
use streams_model::{STREAMS, Streams};

// Whether a message of a stream can be taken; 19 where there is no such stream.
pub fn is_readable(
    streams: Streams,
    table: &[u32; WORDS],
    pool: &[u8],
    stream: u16,
) -> Result<bool, Refusal>
    ensures { flag_told result ≡ is_readable (state_of streams table.now pool.now) stream }
{
    if streams_counts::unsound(streams, table, pool) {
        return Err(Refusal::Unsound);
    }
    let number = stream as usize;
    if STREAMS <= number {
        return Err(Refusal::NoStream);
    }
    let place = streams_parts::among_front(streams, number);
    let turn = streams_turn::in_turn(streams, table, number, place);
    Ok(turn.from < turn.to)
}
