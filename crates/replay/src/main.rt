// Replays the captured chunks on standard input: one line for each record, and the totals.
#![tactic(auto)]

use std::io;

fn main(rt: HostRuntime) -> io::Result<()> {
    replay_stream::run(
        &mut rt.stdin(),
        &mut rt.stdout(),
        replay_file::most_records(),
    )
}
