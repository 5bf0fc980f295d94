// The sheet's text comes from a reader, and each answer goes into its next blank, a %.
use refusal::Refusal;
use std::fmt::Display;
use std::io;
use std::io::{Read, Write};

// No text between two blanks is longer.
const LONGEST: usize = 200;

// The sheet as it comes, and as it goes out.
#[derive(Drop)]
pub struct Sheet<R, W> {
    pub blank: R,
    pub filled: W,
}

impl<R: Read, W: Write> Sheet<R, W> {
    // The text up to the next blank, or to its end.
    pub fn text(&mut self) -> io::Result<()> {
        for byte in self.blank.by_ref().bytes().take(LONGEST) {
            let b = byte?;
            if b == b'%' {
                break;
            }
            self.filled.write_all(&[b])?;
        }
        Ok(())
    }

    // An answer, in the next blank.
    pub fn fill<D: Display + Drop>(&mut self, answer: D) -> io::Result<()> {
        self.text()?;
        write!(self.filled, "{answer}")
    }

    pub fn refused(&mut self, reason: Refusal) -> io::Result<()> {
        self.fill(reason.number())
    }
}
