// The line that a replay writes for a file with another version.
#![tactic(auto)]

ghost use Rattle.std.specs.Prelude.{◌≤◌, length};
ghost use Rattle.replay_words.specs.Behind.{Put};
ghost use Rattle.replay_words.specs.Lines.{bad_version};

use replay_words::put_at;

// The line of a file with another version.
pub fn put_bad_version(out: &mut [u8]) -> usize
    requires { 96 ≤ length out.old }
    ensures { Put out.old bad_version out.new result }
{
    put_at(out, 0, b"bad version\n")
}
