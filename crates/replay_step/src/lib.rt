// A replay of captured chunks, record by record: each call is lent what is left of the file, and puts what is to be written into a lent line.
#![tactic(auto)]

ghost use Rattle.std.specs.Prelude.{◌≡◌};
ghost use Rattle.replay_lines.specs.Behind.{Put};
ghost use Rattle.replay_lines.specs.Lines.{bad_version};
ghost use Rattle.replay_state.specs.State.{state_of};
ghost use Rattle.replay_turn.specs.Step.{stepped, left, left_of};

use payload_queue::WORDS;
use replay_file::Record;
pub use replay_lines::LINE;
pub use replay_state::{Replay, new, total};
pub use replay_turn::Turn;

// What stands at the front of the rest of the file: a record's line and the replay behind it, or that there is no record any more.
pub fn step(
    replay: &mut Replay,
    rest: &[u8],
    table: &mut [u32; WORDS],
    line: &mut [u8; LINE],
) -> Turn
    ensures { left_of result replay.new table.new line.new ≡ left (stepped (state_of replay.old table.old) rest.now) line.old }
{
    match replay_file::record_at(rest) {
        None => Turn {
            more: false,
            taken: 0,
            written: 0,
        },
        Some(Record::Cut) => replay_turn::cut_step(replay, line),
        Some(Record::Chunk(n)) => {
            let end = 2 + n as usize;
            replay_turn::chunk_step(replay, end, &rest[2..end], table, line)
        }
    }
}

// The one line of a file that is not replayed.
pub fn bad_version(line: &mut [u8; LINE]) -> usize
    ensures { Put line.old bad_version line.new result }
{
    replay_bad_version::put_bad_version(line)
}
