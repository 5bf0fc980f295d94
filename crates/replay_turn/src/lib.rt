// What a record makes of a replay: its line, and the replay behind it, which is altered where it lies.
#![tactic(auto)]

ghost use Rattle.std.specs.Prelude.{◌≡◌, ℕ, List};
ghost use Rattle.refusal.specs.Told.{flag_told};
ghost use Rattle.replay_state.specs.State.{state_of};
ghost use Rattle.replay_turn.specs.Step.{kind_of, cut_short, chunk_step, left, left_of};

use counters::Kind;
use payload_queue::WORDS;
use refusal::Refusal;
use replay_lines::LINE;
use replay_state::Replay;

// Whether there may be more records, how many bytes this one took, and how many stand in the line.
#[derive(Clone, Copy)]
pub struct Turn {
    pub more: bool,
    pub taken: usize,
    pub written: usize,
}

// What an answer counts as.
fn kind_of(answer: Result<bool, Refusal>) -> Kind
    ensures { result ≡ kind_of (flag_told answer) }
{
    match answer {
        Ok(true) => Kind::Stored,
        Ok(false) => Kind::TurnedAway,
        Err(_) => Kind::Refused,
    }
}

// The record with these bytes of a chunk, and so many in all.
pub fn chunk_step(
    replay: &mut Replay,
    taken: usize,
    raw: &[u8],
    table: &mut [u32; WORDS],
    line: &mut [u8; LINE],
) -> Turn
    ensures { left_of result replay.new table.new line.new ≡ left (chunk_step taken (state_of replay.old table.old) raw.now) line.old }
{
    let answer = replay_push::push_record(&mut replay.queue, table, raw);
    let written = replay_lines::put_record(line, replay.number, answer);
    counters::count(&mut replay.counters, kind_of(answer));
    replay.number = replay.number.wrapping_add(1);
    Turn {
        more: true,
        taken,
        written,
    }
}

// The record that is cut short.
pub fn cut_step(replay: &mut Replay, line: &mut [u8; LINE]) -> Turn
    ensures { (ws : List ℕ) → left_of result replay.new ws line.new ≡ left (cut_short (state_of replay.old ws)) line.old }
{
    let written = replay_lines::put_cut(line, replay.number);
    counters::count(&mut replay.counters, Kind::Cut);
    Turn {
        more: false,
        taken: 0,
        written,
    }
}
