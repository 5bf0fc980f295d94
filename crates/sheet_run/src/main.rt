// Runs the bench sheet of document 01 on the code: the sheet comes with a blank, %, for each answer, and goes out with what the calls answer in them.
// Crate `sheet` states the same lines of the definitions.
#![tactic(auto)]

mod arrivals;
mod data_chunk;
mod full;
mod hand;
mod numbers;
mod queued;
mod sack_chunk;
mod show;

use show::Sheet;
use std::io;
use std::io::{BufReader, BufWriter, Write};

fn main(rt: HostRuntime) -> io::Result<()> {
    let mut sheet = Sheet {
        blank: BufReader::new(rt.alloc(), rt.stdin())?,
        filled: BufWriter::new(rt.alloc(), rt.stdout())?,
    };
    numbers::p1(&mut sheet)?;
    data_chunk::p2(&mut sheet)?;
    data_chunk::p3(&mut sheet)?;
    data_chunk::p4(&mut sheet, 15)?;
    data_chunk::p4(&mut sheet, 16)?;
    sack_chunk::p5(&mut sheet)?;
    queued::report(&mut sheet, [102, 103, 105], 100)?;
    queued::report(&mut sheet, [4294967295, 0, 2], 4294967294)?;
    queued::report(&mut sheet, [65534, 65535, 65536], 0)?;
    arrivals::p9(&mut sheet)?;
    arrivals::p10(&mut sheet)?;
    arrivals::p11(&mut sheet)?;
    hand::p12(&mut sheet)?;
    full::fragments(&mut sheet)?;
    hand::short_buffer(&mut sheet)?;
    sheet.text()?;
    sheet.filled.flush()
}
