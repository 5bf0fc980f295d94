// A SACK chunk, field by field, and its two lists.
use crate::outcome;
use chunk_selective_ack::{ChunkSelectiveAck, GapAckBlock};
use refusal::Refusal;
use std::alloc::{AllocError, Global};
use std::io;
use std::io::Write;

pub fn show<W: Write>(writer: &mut W, alloc: Global, title: &str, raw: &[u8]) -> io::Result<()> {
    outcome::begun(writer, title, raw)?;
    match read(raw) {
        Ok(sack) => show_parts(writer, alloc, raw, sack),
        Err(refusal) => outcome::refused(writer, refusal),
    }
}

// What a SACK chunk says: its fields and its two lists.
#[derive(Clone, Copy)]
struct Sack<'a> {
    fields: ChunkSelectiveAck,
    blocks: &'a [u8],
    tsns: &'a [u8],
}

fn read(raw: &[u8]) -> Result<Sack<'_>, Refusal> {
    let fields = chunk_selective_ack::unmarshal(raw)?;
    let blocks = chunk_selective_ack::gap_ack_blocks(raw)?;
    let tsns = chunk_selective_ack::duplicate_tsns(raw)?;
    Ok(Sack {
        fields,
        blocks,
        tsns,
    })
}

fn show_parts<W: Write>(
    writer: &mut W,
    alloc: Global,
    raw: &[u8],
    sack: Sack<'_>,
) -> io::Result<()> {
    let fields = sack.fields;
    let blocks = blocks(alloc, sack.blocks)?;
    let tsns = tsns(alloc, sack.tsns)?;
    writeln!(
        writer,
        "  cumulative TSN      {}",
        fields.cumulative_tsn_ack
    )?;
    let window = fields.advertised_receiver_window_credit;
    writeln!(writer, "  a_rwnd              {window}")?;
    writeln!(writer, "  gap ack blocks      {}", fields.gap_ack_blocks)?;
    for block in blocks.iter() {
        writeln!(
            writer,
            "    block             {}-{}",
            block.start, block.end
        )?;
    }
    writeln!(writer, "  duplicate TSNs      {}", fields.duplicate_tsns)?;
    for tsn in tsns.iter() {
        writeln!(writer, "    TSN               {tsn}")?;
    }
    write_again(writer, alloc, raw, fields, &blocks, &tsns)
}

// The blocks of a part.
fn blocks(alloc: Global, part: &[u8]) -> Result<Vec<GapAckBlock>, AllocError> {
    (0..part.len())
        .map_while(|i| chunk_selective_ack::gap_ack_block_at(part, i).ok())
        .collect(alloc)
}

// The duplicate TSNs of a part.
fn tsns(alloc: Global, part: &[u8]) -> Result<Vec<u32>, AllocError> {
    (0..part.len())
        .map_while(|i| chunk_selective_ack::duplicate_tsn_at(part, i).ok())
        .collect(alloc)
}

// Writes the chunk into a fresh buffer, with room for the longest one.
fn write_again<W: Write>(
    writer: &mut W,
    alloc: Global,
    raw: &[u8],
    fields: ChunkSelectiveAck,
    blocks: &Vec<GapAckBlock>,
    tsns: &Vec<u32>,
) -> io::Result<()> {
    let starts: Vec<u16> = blocks.iter().map(|b| b.start).collect(alloc)?;
    let ends: Vec<u16> = blocks.iter().map(|b| b.end).collect(alloc)?;
    let mut out = [0u8; 65535];
    let again = chunk_selective_ack::marshal_to(
        &mut out,
        fields.cumulative_tsn_ack,
        fields.advertised_receiver_window_credit,
        starts.as_slice(),
        ends.as_slice(),
        tsns.as_slice(),
    );
    match again {
        Ok(n) => outcome::written(writer, raw, &out[..n.min(65535)]),
        Err(refusal) => outcome::refused(writer, refusal),
    }
}
