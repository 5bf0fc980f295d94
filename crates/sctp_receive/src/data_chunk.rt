// The DATA chunk.
ghost use Rattle.std.specs.Prelude.{◌≡◌, length};
ghost use Rattle.wire_model.specs.Refusal.{written};
ghost use Rattle.chunk.specs.Header.{HeaderFront};
ghost use Rattle.chunk_payload_data.specs.Data.{DataFront, data_read, data_written};
ghost use Rattle.sctp_receive_result.specs.Result.{told};
ghost use Rattle.sctp_receive_values.specs.Fields.{chunk_from, values_from};
ghost use Rattle.sctp_receive_places.specs.Places.{span, user_span};

use data_fields::ChunkPayloadData;
use sctp_receive_result::{counted, refused};

// The fields of the DATA chunk that the lent bytes begin with; 1 2 3 4 15.
#[unsafe(no_mangle)]
pub extern "C" fn sctp_receive_data_unmarshal(
    raw: &[u8],
    unordered: &mut bool,
    beginning_fragment: &mut bool,
    ending_fragment: &mut bool,
    immediate_sack: &mut bool,
    tsn: &mut u32,
    stream_identifier: &mut u16,
    stream_sequence_number: &mut u16,
    payload_type: &mut u32,
) -> i32
    ensures { (f : DataFront raw.now) → told result (values_from unordered.new beginning_fragment.new ending_fragment.new immediate_sack.new tsn.new stream_identifier.new stream_sequence_number.new payload_type.new) ≡ data_read (length raw.now) f.fields }
{
    *unordered = false;
    *beginning_fragment = false;
    *ending_fragment = false;
    *immediate_sack = false;
    *tsn = 0;
    *stream_identifier = 0;
    *stream_sequence_number = 0;
    *payload_type = 0;
    let answer = chunk_payload_data::unmarshal(raw);
    match answer {
        Ok(p) => {
            *unordered = p.unordered;
            *beginning_fragment = p.beginning_fragment;
            *ending_fragment = p.ending_fragment;
            *immediate_sack = p.immediate_sack;
            *tsn = p.tsn;
            *stream_identifier = p.stream_identifier;
            *stream_sequence_number = p.stream_sequence_number;
            *payload_type = p.payload_type;
            -1
        }
        Err(e) => refused(e),
    }
}

// Where the user data of the chunk that the lent bytes begin with stands in them: from byte 16 up to the length; 1 2 3 4 15.
#[unsafe(no_mangle)]
pub extern "C" fn sctp_receive_data_user_data(
    raw: &[u8],
    start: &mut usize,
    size: &mut usize,
) -> i32
    ensures { (f : HeaderFront raw.now) → told result (span start.new size.new) ≡ user_span (length raw.now) f.fields }
{
    sctp_receive_codecs::user_data(raw, start, size)
}

// The DATA chunk of these fields and this user data, written to the front of the lent buffer; n is its byte count; 15, 9 and 10.
#[unsafe(no_mangle)]
pub extern "C" fn sctp_receive_data_marshal_to(
    out: &mut [u8],
    unordered: bool,
    beginning_fragment: bool,
    ending_fragment: bool,
    immediate_sack: bool,
    tsn: u32,
    stream_identifier: u16,
    stream_sequence_number: u16,
    payload_type: u32,
    user: &[u8],
    n: &mut usize,
) -> i32
    ensures { written (told result n.new) out.new ≡ data_written (chunk_from unordered beginning_fragment ending_fragment immediate_sack tsn stream_identifier stream_sequence_number payload_type) user.now out.old }
{
    let fields = ChunkPayloadData {
        unordered,
        beginning_fragment,
        ending_fragment,
        immediate_sack,
        tsn,
        stream_identifier,
        stream_sequence_number,
        payload_type,
    };
    let answer = chunk_payload_data::marshal_to(out, fields, user);
    counted(answer, n)
}
