// The DATA chunk of RFC 4960 section 3.3.1: its fields read, and the chunk written from them. Its struct, header, user data and flags byte, and the names of identifiers, are handed on.
#![tactic(auto)]

ghost use Rattle.std.specs.Prelude.{◌≡◌, ◌≤◌, length};
ghost use Rattle.wire_model.specs.Refusal.{written};
ghost use Rattle.refusal.specs.Told.{count_told};
ghost use Rattle.chunk_payload_data.specs.Data.{DataFront, data_told, data_read, data_written};
ghost use Rattle.data_fields.specs.Fields.{data_held, data_shown};

pub use data_fields::{ChunkPayloadData, flags_of};
pub use data_header::{header, user_data};
pub use payload_identifier::PayloadProtocolIdentifier;
use refusal::Refusal;

// The fields of the DATA chunk that the lent bytes begin with.
pub fn unmarshal(raw: &[u8]) -> Result<ChunkPayloadData, Refusal>
    ensures { (f : DataFront raw.now) → data_told result ≡ data_read (length raw.now) f.fields }
{
    let h = header(raw)?;
    Ok(fields(raw, h.flags))
}

// The fields behind a header with these flags.
fn fields(raw: &[u8], flags: u8) -> ChunkPayloadData
    requires { 16 ≤ length raw.now }
    ensures { (f : DataFront raw.now) → data_held result ≡ data_shown flags f.fields.fields }
{
    let tsn = wire::get_u32(raw, 4);
    let stream_identifier = wire::get_u16(raw, 8);
    let stream_sequence_number = wire::get_u16(raw, 10);
    let payload_type = wire::get_u32(raw, 12);
    ChunkPayloadData {
        unordered: flags / 4 % 2 == 1,
        beginning_fragment: flags / 2 % 2 == 1,
        ending_fragment: flags / 1 % 2 == 1,
        immediate_sack: flags / 8 % 2 == 1,
        tsn,
        stream_identifier,
        stream_sequence_number,
        payload_type,
    }
}

// The DATA chunk of these fields and this user data, written to the front of the lent buffer.
pub fn marshal_to(out: &mut [u8], fields: ChunkPayloadData, user: &[u8]) -> Result<usize, Refusal>
    ensures { written (count_told result) out.new ≡ data_written fields user.now out.old }
{
    let flags = flags_of(fields);
    data_marshal::marshal_to(
        out,
        flags,
        fields.tsn,
        fields.stream_identifier,
        fields.stream_sequence_number,
        fields.payload_type,
        user,
    )
}
