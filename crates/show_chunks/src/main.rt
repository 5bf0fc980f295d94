// Reads chunks, prints what they say, and writes them again. The bytes and the fields are those of document 01, "Bench sheet", and of
// RFC 4960 section 3.3.4.
#![tactic(auto)]

mod outcome;
mod show_data;
mod show_sack;

use std::io;
use std::io::{BufWriter, Write};

// P2: B and E, TSN 10, stream 2, SSN 5, identifier 51, "abc".
const P2: [u8; 19] =
    *b"\x00\x03\x00\x13\x00\x00\x00\x0A\x00\x02\x00\x05\x00\x00\x00\x33\x61\x62\x63";

// P3: the same with identifier 7, which has no name.
const P3: [u8; 19] =
    *b"\x00\x03\x00\x13\x00\x00\x00\x0A\x00\x02\x00\x05\x00\x00\x00\x07\x61\x62\x63";

// P5: cumulative 100, a_rwnd 1500, blocks 2-3 and 5-5, duplicate 98.
const P5: [u8; 28] =
    *b"\x03\x00\x00\x1C\x00\x00\x00\x64\x00\x00\x05\xDC\x00\x02\x00\x01\x00\x02\x00\x03\x00\x05\x00\x05\x00\x00\x00\x62";

// The worked SACK of the RFC: cumulative 12, a_rwnd 4660, blocks 2-3 and 5-5, no duplicates.
const WORKED: [u8; 24] =
    *b"\x03\x00\x00\x18\x00\x00\x00\x0C\x00\x00\x12\x34\x00\x02\x00\x00\x00\x02\x00\x03\x00\x05\x00\x05";

// P4: a DATA chunk whose length, 15, ends before its identifier does.
const P4: [u8; 16] = *b"\x00\x03\x00\x0F\x00\x00\x00\x0A\x00\x02\x00\x05\x00\x00\x00\x33";

fn main(rt: HostRuntime) -> io::Result<()> {
    let alloc = rt.alloc();
    let mut writer = BufWriter::new(alloc, rt.stdout())?;
    let (p2, p3, p4, p5, worked) = (P2, P3, P4, P5, WORKED);
    show_data::show(&mut writer, "DATA, bench sheet P2", &p2)?;
    writeln!(writer)?;
    show_data::show(&mut writer, "DATA, bench sheet P3", &p3)?;
    writeln!(writer)?;
    show_sack::show(&mut writer, alloc, "SACK, bench sheet P5", &p5)?;
    writeln!(writer)?;
    show_sack::show(&mut writer, alloc, "SACK, RFC 4960 section 3.3.4", &worked)?;
    writeln!(writer)?;
    show_data::show(&mut writer, "DATA of length 15, bench sheet P4", &p4)?;
    writer.flush()
}
