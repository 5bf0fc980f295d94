// The calls that answer with a part of a raw.
use answer_text::fault::{Fault, Malformed};
use answer_text::operands::Operands;
use answer_text::shown::Bytes;
use refusal::Refusal;
use std::io::Write;

pub fn answer<W: Write>(number: u8, call: &mut Operands<'_>, out: &mut W) -> Result<(), Fault> {
    match part(number, call)? {
        Ok(part) => write!(out, "part {}", Bytes(part))?,
        Err(refusal) => write!(out, "{refusal}")?,
    }
    Ok(())
}

fn part<'a>(number: u8, call: &mut Operands<'a>) -> Result<Result<&'a [u8], Refusal>, Malformed> {
    let raw = call.raw()?;
    Ok(match number {
        7 => chunk_payload_data::user_data(raw),
        10 => chunk_selective_ack::gap_ack_blocks(raw),
        11 => chunk_selective_ack::duplicate_tsns(raw),
        54 => chunk_forward_tsn::streams(raw),
        62 => Ok(packet_walker::bytes_at(raw, call.index()?)),
        _ => return Err(Malformed),
    })
}
