// What reading the causes of an ERROR or ABORT chunk is made of: the cause at a place, and the chunk in a cause's value.
#![tactic(auto)]

ghost use Rattle.std.specs.Prelude.{◌≤◌, length, drop};
ghost use Rattle.cause_parts.specs.Fronts.{CauseAt, ChunkAt};

use chunk::chunk_header;
use refusal::Refusal;

pub const ABORT: u8 = 6;

pub const ERROR: u8 = 9;

// A cause's code, and its length, which counts these 4 bytes and the value.
#[derive(Clone, Copy)]
pub struct CauseHeader {
    pub code: u16,
    pub size: u16,
}

// The cause at a place.
pub fn cause_at(raw: &[u8], at: usize) -> Result<CauseHeader, Refusal>
    requires { at ≤ length raw.now }
    ensures { CauseAt (drop at raw.now) result }
{
    let left = raw.len() - at;
    if left < 4 {
        return Err(Refusal::BadCause);
    }
    let code = wire::get_u16(raw, at);
    let size = wire::get_u16(raw, at + 2);
    if size < 4 {
        return Err(Refusal::BadCause);
    }
    if left < size as usize {
        return Err(Refusal::BadCause);
    }
    Ok(CauseHeader { code, size })
}

// The chunk in the value that goes from a place to the end of the lent bytes: the place where its causes end; none where nothing is to follow.
pub fn chunk_at(raw: &[u8], at: usize) -> Result<Option<usize>, Refusal>
    requires { at ≤ length raw.now }
    ensures { ChunkAt raw.now at result }
{
    if at == raw.len() {
        return Ok(None);
    }
    let front = chunk_header::unmarshal(&raw[at..])?;
    let kind = front.typ;
    let end = at + front.length as usize;
    if kind == ERROR {
        return Ok(Some(end));
    }
    if kind == ABORT {
        return Ok(Some(end));
    }
    Ok(None)
}
