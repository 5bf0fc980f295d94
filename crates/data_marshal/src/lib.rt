// The DATA chunk of RFC 4960 section 3.3.1, written from the numbers in it.
#![tactic(auto)]

ghost use Rattle.std.specs.Prelude.{◌≡◌, length};
ghost use Rattle.wire_model.specs.Refusal.{written, write};
ghost use Rattle.refusal.specs.Told.{count_told};
ghost use Rattle.data_marshal.specs.Layout.{data_chunk};
ghost use Rattle.data_marshal.specs.Checks.{sent, size_checks};

use refusal::Refusal;

// The DATA chunk with this flags byte, these fields and this user data, written to the front of the lent buffer.
pub fn marshal_to(
    out: &mut [u8],
    flags: u8,
    tsn: u32,
    stream_identifier: u16,
    stream_sequence_number: u16,
    payload_type: u32,
    user: &[u8],
) -> Result<usize, Refusal>
    ensures { written (count_told result) out.new ≡ write (size_checks (length user.now)) (data_chunk flags (sent tsn stream_identifier stream_sequence_number payload_type) user.now) out.old }
{
    if user.len() == 0 {
        return Err(Refusal::NoData);
    }
    if 65519 < user.len() {
        return Err(Refusal::ChunkTooLarge);
    }
    let size = 16 + user.len();
    if out.len() < size {
        return Err(Refusal::ShortOutput);
    }
    fields::put_front_4224(
        out,
        0,
        flags,
        size as u16,
        tsn,
        stream_identifier,
        stream_sequence_number,
        payload_type,
    );
    wire_put::put_bytes(&mut out[16..], user);
    Ok(size)
}
