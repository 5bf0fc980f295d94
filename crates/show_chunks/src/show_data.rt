// A DATA chunk, field by field.
use crate::outcome;
use data_fields::ChunkPayloadData;
use payload_identifier::PayloadProtocolIdentifier;
use print::{Quoted, Spaced, yes_or_no};
use refusal::Refusal;
use std::io;
use std::io::Write;

pub fn show<W: Write>(writer: &mut W, title: &str, raw: &[u8]) -> io::Result<()> {
    outcome::begun(writer, title, raw)?;
    match read(raw) {
        Ok((fields, user)) => {
            show_fields(writer, fields, user)?;
            write_again(writer, raw, fields, user)
        }
        Err(refusal) => outcome::refused(writer, refusal),
    }
}

// The chunk's fields and its user data.
fn read(raw: &[u8]) -> Result<(ChunkPayloadData, &[u8]), Refusal> {
    let fields = chunk_payload_data::unmarshal(raw)?;
    let user = chunk_payload_data::user_data(raw)?;
    Ok((fields, user))
}

fn show_fields<W: Write>(writer: &mut W, f: ChunkPayloadData, user: &[u8]) -> io::Result<()> {
    writeln!(writer, "  unordered           {}", yes_or_no(f.unordered))?;
    writeln!(
        writer,
        "  beginning fragment  {}",
        yes_or_no(f.beginning_fragment)
    )?;
    writeln!(
        writer,
        "  ending fragment     {}",
        yes_or_no(f.ending_fragment)
    )?;
    writeln!(
        writer,
        "  immediate sack      {}",
        yes_or_no(f.immediate_sack)
    )?;
    writeln!(writer, "  TSN                 {}", f.tsn)?;
    writeln!(writer, "  stream              {}", f.stream_identifier)?;
    writeln!(writer, "  SSN                 {}", f.stream_sequence_number)?;
    let name = name(PayloadProtocolIdentifier::from(f.payload_type));
    writeln!(writer, "  payload identifier  {} ({name})", f.payload_type)?;
    let n = user.len();
    writeln!(
        writer,
        "  user data           {n} bytes: {}, {}",
        Spaced(user),
        Quoted(user)
    )
}

fn name(identifier: PayloadProtocolIdentifier) -> &'static str {
    match identifier {
        PayloadProtocolIdentifier::Dcep => "Dcep",
        PayloadProtocolIdentifier::String => "String",
        PayloadProtocolIdentifier::Binary => "Binary",
        PayloadProtocolIdentifier::StringEmpty => "StringEmpty",
        PayloadProtocolIdentifier::BinaryEmpty => "BinaryEmpty",
        PayloadProtocolIdentifier::Unknown => "Unknown",
    }
}

// Writes the chunk into a fresh buffer, with room for the longest one.
fn write_again<W: Write>(
    writer: &mut W,
    raw: &[u8],
    fields: ChunkPayloadData,
    user: &[u8],
) -> io::Result<()> {
    let mut out = [0u8; 65535];
    match chunk_payload_data::marshal_to(&mut out, fields, user) {
        Ok(n) => outcome::written(writer, raw, &out[..n.min(65535)]),
        Err(refusal) => outcome::refused(writer, refusal),
    }
}
