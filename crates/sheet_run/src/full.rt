// The table of reassembly, filled to its last record.
use crate::arrivals;
use crate::arrivals::Stream;
use crate::show::Sheet;
use reassembly_queue::FRAGMENTS;
use refusal::Refusal;
use std::io;
use std::io::{Read, Write};

// Unordered fragments of a byte each, all B and none E, one fewer than there is room for; then two more.
pub fn fragments<R: Read, W: Write>(sheet: &mut Sheet<R, W>) -> io::Result<()> {
    let mut stream = Stream::new();
    for i in 1..FRAGMENTS {
        let _ = stream.push(arrivals::unordered(true, false, i as u32), b"x");
    }
    one_more(sheet, &mut stream, 1000, 512)?;
    one_more(sheet, &mut stream, 2000, 513)
}

// One more, with this TSN: it is stored if so many bytes are held then.
fn one_more<R: Read, W: Write>(
    sheet: &mut Sheet<R, W>,
    stream: &mut Stream,
    tsn: u32,
    want: usize,
) -> io::Result<()> {
    match held_after(stream, tsn) {
        Ok(n) if n == want => sheet.fill("stored"),
        Ok(_) => Ok(()),
        Err(reason) => sheet.refused(reason),
    }
}

fn held_after(stream: &mut Stream, tsn: u32) -> Result<usize, Refusal> {
    stream.push(arrivals::unordered(true, false, tsn), b"x")?;
    stream.bytes()
}
