// The lines that a replay writes, put at the front of a lent buffer: one for a record, and one for the totals.
#![tactic(auto)]

ghost use Rattle.std.specs.Prelude.{◌≤◌, length};
ghost use Rattle.refusal.specs.Told.{flag_told};
ghost use Rattle.replay_words.specs.Behind.{Put};
ghost use Rattle.replay_words.specs.Lines.{line, said_answer, said_cut, total_line};

use counters::Counters;
use refusal::Refusal;
use replay_words::{decimal_at, put_at, said_at, words_at};

// No line is longer.
pub const LINE: usize = 96;

// The line of a record with this number and answer; how long it is.
pub fn put_record(out: &mut [u8], number: u64, answer: Result<bool, Refusal>) -> usize
    requires { 96 ≤ length out.old }
    ensures { Put out.old (line number (said_answer (flag_told answer))) out.new result }
{
    let space = decimal_at(out, 0, number);
    let what = put_at(out, space, b" ");
    let end = said_at(out, what, answer);
    put_at(out, end, b"\n")
}

// The line of a record with this number that is cut short.
pub fn put_cut(out: &mut [u8], number: u64) -> usize
    requires { 96 ≤ length out.old }
    ensures { Put out.old (line number said_cut) out.new result }
{
    let end = decimal_at(out, 0, number);
    put_at(out, end, b" cut\n")
}

// The line of the totals.
pub fn put_total(out: &mut [u8], counters: Counters) -> usize
    requires { 96 ≤ length out.old }
    ensures { Put out.old (total_line counters) out.new result }
{
    let first = put_at(out, 0, b"total");
    let third = words_at(out, first, counters.stored, counters.turned_away);
    let end = words_at(out, third, counters.refused, counters.cut);
    put_at(out, end, b"\n")
}
