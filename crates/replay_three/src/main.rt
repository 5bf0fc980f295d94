// The same with a limit of three records: behind the third it ends as at the file's end.
#![tactic(auto)]

use std::io;

fn main(rt: HostRuntime) -> io::Result<()> {
    replay_stream::run(&mut rt.stdin(), &mut rt.stdout(), 3)
}
