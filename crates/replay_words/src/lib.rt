// What the lines of a replay are made of: bytes, numbers and answers, each put behind the first bytes of a lent buffer.
#![tactic(auto)]

ghost use Rattle.std.specs.Prelude.{◌++◌, ◌+◌, ◌≤◌, length};
ghost use Rattle.refusal.specs.Told.{flag_told};
ghost use Rattle.replay_words.specs.Behind.{Behind};
ghost use Rattle.replay_words.specs.Lines.{decimal, said_answer, word};

use itoa::Buffer;
use refusal::Refusal;

// Bytes, put behind the first ones; the place behind them.
pub fn put_at(out: &mut [u8], at: usize, bytes: &[u8]) -> usize
    requires { at + length bytes.now ≤ length out.old }
    ensures { Behind out.old at bytes.now out.new result }
{
    wire_put::put_bytes(&mut out[at..], bytes);
    at + bytes.len()
}

// A number in decimal digits.
pub fn decimal_at(out: &mut [u8], at: usize, n: u64) -> usize
    requires { at + 20 ≤ length out.old }
    ensures behind { Behind out.old at (decimal n) out.new result }
    ensures upper_bound { result ≤ at + 20 }
{
    let mut text = Buffer::new();
    put_at(out, at, text.format(n).as_bytes())
}

// A number behind a space.
pub fn word_at(out: &mut [u8], at: usize, n: u32) -> usize
    requires { at + 21 ≤ length out.old }
    ensures behind { Behind out.old at (word n) out.new result }
    ensures upper_bound { result ≤ at + 21 }
{
    let digits = put_at(out, at, b" ");
    decimal_at(out, digits, n as u64)
}

// Two numbers, each behind a space.
pub fn words_at(out: &mut [u8], at: usize, n: u32, m: u32) -> usize
    requires { at + 42 ≤ length out.old }
    ensures behind { Behind out.old at (word n ++ word m) out.new result }
    ensures upper_bound { result ≤ at + 42 }
{
    let second = word_at(out, at, n);
    word_at(out, second, m)
}

// What is said of a record's answer: T, F or the refusal's number.
pub fn said_at(out: &mut [u8], at: usize, answer: Result<bool, Refusal>) -> usize
    requires { at + 20 ≤ length out.old }
    ensures behind { Behind out.old at (said_answer (flag_told answer)) out.new result }
    ensures upper_bound { result ≤ at + 20 }
{
    match answer {
        Ok(true) => put_at(out, at, b"T"),
        Ok(false) => put_at(out, at, b"F"),
        Err(e) => decimal_at(out, at, u64::from(e.number())),
    }
}
