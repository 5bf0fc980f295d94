// The calls of ERROR and ABORT: the causes of a chunk, into lists that are lent with so many places, all of which are shown.
use answer_text::answer::Answer;
use answer_text::fault::Fault;
use answer_text::operands::{CAUSES, Operands, lent};
use answer_text::rooms::Rooms;
use answer_text::shown::Unsigned;
use std::io::Write;

pub fn answer<W: Write>(
    number: u8,
    call: &mut Operands<'_>,
    rooms: &mut Rooms,
    out: &mut W,
) -> Result<(), Fault> {
    let raw = call.raw()?;
    let n = call.places(CAUSES)?;
    let m = call.places(CAUSES)?;
    let k = call.places(CAUSES)?;
    let l = call.places(CAUSES)?;
    let fill = call.u16()?;
    let codes = lent(&mut rooms.first, n, fill);
    let depths = lent(&mut rooms.second, m, fill);
    let starts = lent(&mut rooms.third, k, fill);
    let sizes = lent(&mut rooms.fourth, l, fill);
    let told = if number == 65 {
        chunk_error::unmarshal(raw, codes, depths, starts, sizes)
    } else {
        chunk_abort::unmarshal(raw, codes, depths, starts, sizes)
    };
    let answer = told.map_or_else(Answer::Refused, Answer::Causes);
    write!(out, "{answer} codes{}", Unsigned(codes))?;
    write!(out, " depths{}", Unsigned(depths))?;
    write!(out, " starts{}", Unsigned(starts))?;
    write!(out, " sizes{}", Unsigned(sizes))?;
    Ok(())
}
