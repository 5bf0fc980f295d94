// SACK: P5 is written, and what was written is read.
use crate::show::Sheet;
use chunk_selective_ack::ChunkSelectiveAck;
use print::Spaced;
use refusal::Refusal;
use std::io;
use std::io::{Read, Write};

pub fn p5<R: Read, W: Write>(sheet: &mut Sheet<R, W>) -> io::Result<()> {
    let mut out = [0u8; 28];
    let written = chunk_selective_ack::marshal_to(&mut out, 100, 1500, &[2, 5], &[3, 5], &[98]);
    read(sheet, &out)?;
    match written {
        Ok(n) => sheet.fill(Spaced(&out[..n.min(28)])),
        Err(reason) => sheet.refused(reason),
    }
}

fn read<R: Read, W: Write>(sheet: &mut Sheet<R, W>, raw: &[u8]) -> io::Result<()> {
    match parts(raw) {
        Ok((fields, blocks, tsns)) => {
            sheet.fill(fields.cumulative_tsn_ack)?;
            sheet.fill(fields.advertised_receiver_window_credit)?;
            block(sheet, blocks, 0)?;
            block(sheet, blocks, 1)?;
            match chunk_selective_ack::duplicate_tsn_at(tsns, 0) {
                Ok(tsn) => sheet.fill(tsn),
                Err(reason) => sheet.refused(reason),
            }
        }
        Err(reason) => sheet.refused(reason),
    }
}

// The fields, the blocks and the duplicate TSNs.
fn parts(raw: &[u8]) -> Result<(ChunkSelectiveAck, &[u8], &[u8]), Refusal> {
    let fields = chunk_selective_ack::unmarshal(raw)?;
    let blocks = chunk_selective_ack::gap_ack_blocks(raw)?;
    let tsns = chunk_selective_ack::duplicate_tsns(raw)?;
    Ok((fields, blocks, tsns))
}

fn block<R: Read, W: Write>(sheet: &mut Sheet<R, W>, part: &[u8], i: usize) -> io::Result<()> {
    match chunk_selective_ack::gap_ack_block_at(part, i) {
        Ok(block) => sheet.fill(format_args!("{}-{}", block.start, block.end)),
        Err(reason) => sheet.refused(reason),
    }
}
