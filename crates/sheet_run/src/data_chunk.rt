// DATA: P2 is written and what was written is read; P3 is P2 with another identifier, P4 with another length.
use crate::arrivals;
use crate::show::Sheet;
use data_fields::ChunkPayloadData;
use print::{Quoted, Spaced};
use refusal::Refusal;
use std::io;
use std::io::{Read, Write};

pub fn p2<R: Read, W: Write>(sheet: &mut Sheet<R, W>) -> io::Result<()> {
    let mut out = [0u8; 19];
    let mut fields = arrivals::ordered(true, true, 10, 5);
    fields.stream_identifier = 2;
    let written = chunk_payload_data::marshal_to(&mut out, fields, b"abc");
    read(sheet, &out)?;
    match written {
        Ok(n) => sheet.fill(Spaced(&out[..n.min(19)])),
        Err(reason) => sheet.refused(reason),
    }
}

fn read<R: Read, W: Write>(sheet: &mut Sheet<R, W>, raw: &[u8]) -> io::Result<()> {
    match parts(raw) {
        Ok((fields, user)) => {
            sheet.fill(flags(fields))?;
            sheet.fill(fields.tsn)?;
            sheet.fill(fields.stream_identifier)?;
            sheet.fill(fields.stream_sequence_number)?;
            sheet.fill(fields.payload_type)?;
            sheet.fill(Quoted(user))
        }
        Err(reason) => sheet.refused(reason),
    }
}

// U, B and E, those that are set.
fn flags(fields: ChunkPayloadData) -> &'static str {
    let (b, e) = (fields.beginning_fragment, fields.ending_fragment);
    match (fields.unordered, b, e) {
        (false, false, false) => "",
        (false, false, true) => "E",
        (false, true, false) => "B",
        (false, true, true) => "B and E",
        (true, false, false) => "U",
        (true, false, true) => "U and E",
        (true, true, false) => "U and B",
        (true, true, true) => "U and B and E",
    }
}

// The fields and the user data.
fn parts(raw: &[u8]) -> Result<(ChunkPayloadData, &[u8]), Refusal> {
    let fields = chunk_payload_data::unmarshal(raw)?;
    let user = chunk_payload_data::user_data(raw)?;
    Ok((fields, user))
}

pub fn p3<R: Read, W: Write>(sheet: &mut Sheet<R, W>) -> io::Result<()> {
    let mut out = [0u8; 19];
    let mut fields = arrivals::ordered(true, true, 10, 5);
    fields.stream_identifier = 2;
    fields.payload_type = 7;
    let _ = chunk_payload_data::marshal_to(&mut out, fields, b"abc");
    identifier(
        sheet,
        b"\x00\x03\x00\x13\x00\x00\x00\x0A\x00\x02\x00\x05\x00\x00\x00\x07abc",
    )?;
    identifier(sheet, &out)
}

// Prints the identifier of the chunk that these bytes are.
fn identifier<R: Read, W: Write>(sheet: &mut Sheet<R, W>, raw: &[u8]) -> io::Result<()> {
    match chunk_payload_data::unmarshal(raw) {
        Ok(fields) => sheet.fill(fields.payload_type),
        Err(reason) => sheet.refused(reason),
    }
}

// P2's bytes with this length: the refusal, if fields and user data are refused alike; or that it is accepted.
pub fn p4<R: Read, W: Write>(sheet: &mut Sheet<R, W>, size: u8) -> io::Result<()> {
    let mut raw = *b"\x00\x03\x00\x13\x00\x00\x00\x0A\x00\x02\x00\x05\x00\x00\x00\x33";
    raw[3] = size;
    let user = chunk_payload_data::user_data(&raw);
    match chunk_payload_data::unmarshal(&raw) {
        Ok(_) => sheet.fill("accepted"),
        Err(reason) if user == Err(reason) => sheet.refused(reason),
        Err(_) => Ok(()),
    }
}
