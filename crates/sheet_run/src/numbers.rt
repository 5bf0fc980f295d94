// Numbers that wrap.
use crate::show::Sheet;
use std::io;
use std::io::{Read, Write};

pub fn p1<R: Read, W: Write>(sheet: &mut Sheet<R, W>) -> io::Result<()> {
    for (a, b) in [(5, 3), (4294967295, 0), (0, 2147483648)] {
        sheet.fill(serial_distance::tsn_distance(a, b))?;
    }
    Ok(())
}
