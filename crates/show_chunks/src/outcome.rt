// The first lines and the last ones of a chunk: it was read and written again, or refused.
use print::Spaced;
use refusal::Refusal;
use std::io;
use std::io::Write;

// The first lines: a title, and the bytes that are read.
pub fn begun<W: Write>(writer: &mut W, title: &str, raw: &[u8]) -> io::Result<()> {
    writeln!(writer, "{title}")?;
    writeln!(writer, "  read                {}", Spaced(raw))
}

// The last lines of a chunk that was written again: the bytes, and whether they are those that were read.
pub fn written<W: Write>(writer: &mut W, raw: &[u8], out: &[u8]) -> io::Result<()> {
    writeln!(writer, "  written             {}", Spaced(out))?;
    let same = if raw == out { "same" } else { "other" };
    writeln!(writer, "  {same} bytes")
}

// The last line of a chunk that was not read, or not written again.
pub fn refused<W: Write>(writer: &mut W, reason: Refusal) -> io::Result<()> {
    let k = reason.number();
    writeln!(writer, "  refused             {k}{}", meaning(reason))
}

// What the refusals of a chunk call mean.
fn meaning(reason: Refusal) -> &'static str {
    match reason {
        Refusal::ShortHeader => ": fewer than 4 bytes lent",
        Refusal::BadLength => ": length below 4 or above the bytes lent",
        Refusal::OtherType => ": not the type asked for",
        Refusal::ShortData => ": DATA length below 16",
        Refusal::ShortSack => ": SACK length below 16, or below its lists' end",
        Refusal::ChunkTooLarge => ": too long for a chunk",
        Refusal::ShortOutput => ": buffer too short",
        _ => "",
    }
}
