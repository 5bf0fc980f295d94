// The calls that write DATA, SACK, FORWARD TSN and packets into a lent buffer, all bytes of which are shown behind the answer.
use answer_text::answer::Answer;
use answer_text::fault::{Fault, Malformed};
use answer_text::operands::{BYTES, NUMBERS, Operands};
use answer_text::rooms::Rooms;
use answer_text::shown::Bytes;
use refusal::Refusal;
use std::io::Write;

pub fn answer<W: Write>(
    number: u8,
    call: &mut Operands<'_>,
    rooms: &mut Rooms,
    out: &mut W,
) -> Result<(), Fault> {
    let lent = call.room(&mut rooms.buffer)?;
    let wrote = match number {
        8 => data(call, &mut rooms.data, lent)?,
        14 => sack(
            call,
            &mut rooms.first,
            &mut rooms.second,
            &mut rooms.words,
            lent,
        )?,
        56 => forward(call, &mut rooms.first, &mut rooms.second, lent)?,
        64 => packet(call, lent)?,
        _ => return Err(Fault::Malformed),
    };
    let answer = wrote.map_or_else(Answer::Refused, Answer::Wrote);
    write!(out, "{answer} {}", Bytes(lent))?;
    Ok(())
}

fn data(
    call: &mut Operands<'_>,
    user: &mut [u8; BYTES],
    lent: &mut [u8],
) -> Result<Result<usize, Refusal>, Malformed> {
    let chunk = call.fields()?;
    let user = call.user_data(user)?;
    Ok(chunk_payload_data::marshal_to(lent, chunk, user))
}

fn sack(
    call: &mut Operands<'_>,
    starts: &mut [u16; NUMBERS],
    ends: &mut [u16; NUMBERS],
    duplicates: &mut [u32; NUMBERS],
    lent: &mut [u8],
) -> Result<Result<usize, Refusal>, Malformed> {
    let cumulative = call.u32()?;
    let window = call.u32()?;
    let starts = call.shorts(starts)?;
    let ends = call.shorts(ends)?;
    let duplicates = call.words(duplicates)?;
    Ok(chunk_selective_ack::marshal_to(lent, cumulative, window, starts, ends, duplicates))
}

fn forward(
    call: &mut Operands<'_>,
    streams: &mut [u16; NUMBERS],
    ssns: &mut [u16; NUMBERS],
    lent: &mut [u8],
) -> Result<Result<usize, Refusal>, Malformed> {
    let point = call.u32()?;
    let streams = call.shorts(streams)?;
    let ssns = call.shorts(ssns)?;
    Ok(chunk_forward_tsn::marshal_to(lent, point, streams, ssns))
}

fn packet(call: &mut Operands<'_>, lent: &mut [u8]) -> Result<Result<usize, Refusal>, Malformed> {
    let source = call.u16()?;
    let destination = call.u16()?;
    let tag = call.u32()?;
    let chunks = call.raw()?;
    Ok(packet_marshal::marshal_to(lent, source, destination, tag, chunks))
}
