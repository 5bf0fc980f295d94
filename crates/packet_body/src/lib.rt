// The chunks of a packet that is written: lent back to back without padding, put one behind the other with it.
#![tactic(auto)]

ghost use Rattle.std.specs.Prelude.{◌≡◌, ◌≤◌, length};
ghost use Rattle.wire_model.specs.BigEndian.{over};
ghost use Rattle.wire_model.specs.Refusal.{none, first};
ghost use Rattle.refusal.specs.Told.{count_told};
ghost use Rattle.packet_body.specs.Lent.{lent_checks, padded, body, body_size, BodyRoom};

use refusal::Refusal;

// How many bytes the lent chunks are with their padding, or what refuses the first bad one.
pub fn measure(chunks: &[u8]) -> Result<usize, Refusal>
    ensures result_value { count_told result ≡ body_size chunks.now }
    ensures body_room { BodyRoom (length chunks.now) result }
{
    let mut at: usize = 0;
    let mut size: usize = 0;
    while at < chunks.len() {
        let front = packet_parts::chunk_size(&chunks[at..])?;
        at += front as usize;
        size += packet_parts::padded_size(front);
    }
    Ok(size)
}

// A chunk with its padding, put at the front of what is lent: the last four bytes are zeros before the chunk goes over them.
fn put_padded(out: &mut [u8], chunk: &[u8], size: u16)
    requires chunk_len { length chunk.now ≡ size }
    requires le_size { 4 ≤ size }
    requires chunk_in_bounds { length (padded chunk.now) ≤ length out.old }
    ensures { out.new ≡ over out.old (padded chunk.now) }
{
    let last = packet_parts::padded_size(size) - 4;
    wire_put::put_u32(&mut out[last..], 0);
    wire_put::put_bytes(out, chunk);
}

// The lent chunks with their padding, put at the front of what is lent.
pub fn put_body(out: &mut [u8], chunks: &[u8])
    requires chunks_value { first (lent_checks chunks.now) ≡ none }
    requires chunks_in_bounds { length (body chunks.now) ≤ length out.old }
    ensures { out.new ≡ over out.old (body chunks.now) }
{
    let mut from: usize = 0;
    let mut to: usize = 0;
    while from < chunks.len() {
        let size = wire::get_u16(chunks, from + 2);
        let end = from + size as usize;
        put_padded(&mut out[to..], &chunks[from..end], size);
        from = end;
        to += packet_parts::padded_size(size);
    }
}
