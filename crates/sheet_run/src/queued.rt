// The gap report of three TSNs.
use crate::arrivals;
use crate::show::Sheet;
use payload_queue::{PayloadQueue, WORDS};
use std::io;
use std::io::{Read, Write};

// P6 to P8: these are queued, and what the report over this cumulative TSN says.
pub fn report<R: Read, W: Write>(
    sheet: &mut Sheet<R, W>,
    tsns: [u32; 3],
    cumulative: u32,
) -> io::Result<()> {
    let mut table = [0u32; WORDS];
    let mut starts = [0u16; 2];
    let mut ends = [0u16; 2];
    let mut queue = PayloadQueue::new();
    for tsn in tsns {
        let chunk = arrivals::ordered(true, true, tsn, 0);
        match queue.push(&mut table, chunk, 1, cumulative) {
            Ok(true) => sheet.fill(tsn)?,
            Ok(false) => {}
            Err(reason) => sheet.refused(reason)?,
        }
    }
    match queue.get_gap_ack_blocks(&table, cumulative, &mut starts, &mut ends) {
        Ok(n) => {
            for (start, end) in starts.iter().zip(&ends).take(n) {
                sheet.fill(format_args!("{start}-{end}"))?;
            }
            Ok(())
        }
        Err(reason) => sheet.refused(reason),
    }
}
