// The FORWARD TSN chunk of RFC 3758. Where one is applied to a queue stands beside that queue's calls.
ghost use Rattle.std.specs.Prelude.{◌≡◌, length};
ghost use Rattle.wire_model.specs.Refusal.{written};
ghost use Rattle.chunk_forward_tsn.specs.Layout.{pair};
ghost use Rattle.chunk_forward_tsn.specs.ForwardTsn.{forward, ForwardFront, forward_read, PairFront, pair_read, forward_written};
ghost use Rattle.sctp_receive_result.specs.Result.{told};
ghost use Rattle.sctp_receive_places.specs.Places.{span, pairs_span};

// The new cumulative TSN of the FORWARD TSN chunk that the lent bytes begin with, and how many pairs stand behind it; 1 2 3 12.
#[unsafe(no_mangle)]
pub extern "C" fn sctp_receive_forward_tsn_unmarshal(
    raw: &[u8],
    new_cumulative_tsn: &mut u32,
    streams: &mut u16,
) -> i32
    ensures { (f : ForwardFront raw.now) → told result (forward new_cumulative_tsn.new streams.new) ≡ forward_read (length raw.now) f.fields }
{
    sctp_receive_forward_chunk::unmarshal(raw, new_cumulative_tsn, streams)
}

// Where the streams and SSNs of the chunk that the lent bytes begin with stand in them: from byte 8 up to the length; 1 2 3 12.
#[unsafe(no_mangle)]
pub extern "C" fn sctp_receive_forward_tsn_streams(
    raw: &[u8],
    start: &mut usize,
    size: &mut usize,
) -> i32
    ensures { (f : ForwardFront raw.now) → told result (span start.new size.new) ≡ pairs_span (length raw.now) f.fields.header }
{
    sctp_receive_forward_chunk::streams(raw, start, size)
}

// The stream and SSN at an index of such a part; 11.
#[unsafe(no_mangle)]
pub extern "C" fn sctp_receive_forward_tsn_stream_at(
    part: &[u8],
    i: usize,
    identifier: &mut u16,
    sequence: &mut u16,
) -> i32
    ensures { (f : PairFront part.now i) → told result (pair identifier.new sequence.new) ≡ pair_read part.now i f.fields }
{
    sctp_receive_forward_pairs::stream_at(part, i, identifier, sequence)
}

// The FORWARD TSN chunk of this point and these streams and SSNs, written to the front of the lent buffer; n is its byte count; 9 and 10.
#[unsafe(no_mangle)]
pub extern "C" fn sctp_receive_forward_tsn_marshal_to(
    out: &mut [u8],
    new_cumulative_tsn: u32,
    identifiers: &[u16],
    sequences: &[u16],
    n: &mut usize,
) -> i32
    ensures { written (told result n.new) out.new ≡ forward_written new_cumulative_tsn identifiers.now sequences.now out.old }
{
    sctp_receive_forward_pairs::marshal_to(out, new_cumulative_tsn, identifiers, sequences, n)
}
