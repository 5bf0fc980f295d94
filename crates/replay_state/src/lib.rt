// A replay between its records: as it starts, and the line of what it counted.
#![tactic(auto)]

ghost use Rattle.std.specs.Prelude.{◌≡◌};
ghost use Rattle.replay_lines.specs.Behind.{Put};
ghost use Rattle.replay_lines.specs.Lines.{total_line};
ghost use Rattle.replay_state.specs.State.{fresh};

use counters::Counters;
use payload_queue::PayloadQueue;
use replay_lines::LINE;

// The number of the next record, the TSN queue whose table is lent, and what was counted.
#[derive(Clone, Copy)]
pub struct Replay {
    pub number: u64,
    pub queue: PayloadQueue,
    pub counters: Counters,
}

// Nothing is replayed yet; the table lent to the queue may hold anything.
pub fn new() -> Replay
    ensures { result ≡ fresh }
{
    Replay {
        number: 0,
        queue: PayloadQueue::new(),
        counters: counters::new(),
    }
}

// The line behind the last record's.
pub fn total(replay: Replay, line: &mut [u8; LINE]) -> usize
    ensures { Put line.old (total_line replay.counters) line.new result }
{
    let counters = replay.counters;
    replay_lines::put_total(line, counters)
}
