// Bytes as the paper writes them, and as text.
#![tactic(auto)]

use std::fmt;

// Two digits for each byte, with a space between bytes, as the paper writes them.
#[derive(Clone, Copy)]
pub struct Spaced<'a>(pub &'a [u8]);

impl<'a> fmt::Display for Spaced<'a> {
    fn fmt<W: fmt::Write>(&self, f: &mut fmt::Formatter<W>) -> fmt::Result {
        for (i, b) in self.0.iter().enumerate() {
            if 0 < i {
                f.write_str(" ")?;
            }
            write!(f, "{b:02X}")?;
        }
        Ok(())
    }
}

// Text in quotes, with a dot for each byte that is no printable character of ASCII.
#[derive(Clone, Copy)]
pub struct Quoted<'a>(pub &'a [u8]);

impl<'a> fmt::Display for Quoted<'a> {
    fn fmt<W: fmt::Write>(&self, f: &mut fmt::Formatter<W>) -> fmt::Result {
        f.write_str("\"")?;
        for b in self.0 {
            f.write_char(shown(*b))?;
        }
        f.write_str("\"")
    }
}

fn shown(b: u8) -> char {
    if b == b' ' || b.is_ascii_graphic() {
        char::from(b)
    } else {
        '.'
    }
}

pub fn yes_or_no(set: bool) -> &'static str {
    if set { "yes" } else { "no" }
}
