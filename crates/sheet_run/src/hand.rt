// The message in hand.
use crate::show::Sheet;
use chunks::Chunks;
use print::Quoted;
use std::io;
use std::io::{Read, Write};

// A message of so many bytes, just taken.
fn message(size: usize) -> Chunks {
    Chunks {
        ssn: 0,
        ppi: 51,
        size,
        position: 0,
        given: false,
    }
}

pub fn p12<R: Read, W: Write>(sheet: &mut Sheet<R, W>) -> io::Result<()> {
    pieces(sheet, 10, b"1234567890", 4)?;
    pieces(sheet, 0, b"", 2)
}

// Shows how long the next n pieces of at most four bytes are.
fn pieces<R: Read, W: Write>(
    sheet: &mut Sheet<R, W>,
    size: usize,
    buffer: &[u8],
    n: usize,
) -> io::Result<()> {
    let mut message = message(size);
    for _ in 0..n {
        match message.next(buffer, 4) {
            Ok(Some(part)) if part.size == 0 => sheet.fill("one empty piece")?,
            Ok(Some(part)) => sheet.fill(part.size)?,
            Ok(None) => sheet.fill("none")?,
            Err(reason) => sheet.refused(reason)?,
        }
    }
    Ok(())
}

pub fn short_buffer<R: Read, W: Write>(sheet: &mut Sheet<R, W>) -> io::Result<()> {
    let mut out = [0u8; 4];
    let read = message(6).read(b"abcdef", &mut out);
    sheet.fill(Quoted(&out))?;
    match read {
        Ok(n) => sheet.fill(n),
        Err(reason) => sheet.refused(reason),
    }
}
