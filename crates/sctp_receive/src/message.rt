// The message in hand: C keeps its size, its position and whether an empty message's one piece was given, and lends the buffer that it stands at the front of.
// Refusal 0, before every other answer: the message is longer than its buffer, or the position is past the message. Out values are 0 and false beside a refusal.
ghost use Rattle.std.specs.Prelude.{◌≡◌};
ghost use Rattle.wire_model.specs.Refusal.{written};
ghost use Rattle.chunks.specs.Message.{size, is_empty, whole_read, after, next_piece};
ghost use Rattle.sctp_receive_result.specs.Result.{told};
ghost use Rattle.sctp_receive_model.specs.States.{hand_from, piece_from};

// How many bytes the message has.
#[unsafe(no_mangle)]
pub extern "C" fn sctp_receive_chunks_len(
    bytes: usize,
    position: usize,
    given: bool,
    buffer: &[u8],
    n: &mut usize,
) -> i32
    ensures { told result n.new ≡ size (hand_from bytes position given) buffer.now }
{
    let message = sctp_receive_hand::hand(bytes, position, given);
    let answer = message.len(buffer);
    sctp_receive_result::counted(answer, n)
}

// Whether it has none.
#[unsafe(no_mangle)]
pub extern "C" fn sctp_receive_chunks_is_empty(
    bytes: usize,
    position: usize,
    given: bool,
    buffer: &[u8],
    is: &mut bool,
) -> i32
    ensures { told result is.new ≡ is_empty (hand_from bytes position given) buffer.now }
{
    let message = sctp_receive_hand::hand(bytes, position, given);
    let answer = message.is_empty(buffer);
    sctp_receive_hand::flag(answer, is)
}

// The whole message, copied to the front of a lent buffer; where that is too short, what fits of it, and 7.
#[unsafe(no_mangle)]
pub extern "C" fn sctp_receive_chunks_read(
    bytes: usize,
    position: usize,
    given: bool,
    buffer: &[u8],
    out: &mut [u8],
    n: &mut usize,
) -> i32
    ensures { written (told result n.new) out.new ≡ whole_read (hand_from bytes position given) buffer.now out.old }
{
    let message = sctp_receive_hand::hand(bytes, position, given);
    let answer = message.read(buffer, out);
    sctp_receive_result::counted(answer, n)
}

// The place of the next piece, of at most so many bytes, if one comes.
#[unsafe(no_mangle)]
pub extern "C" fn sctp_receive_chunks_next(
    bytes: &mut usize,
    position: &mut usize,
    given: &mut bool,
    buffer: &[u8],
    most: usize,
    found: &mut bool,
    piece_start: &mut usize,
    piece_size: &mut usize,
) -> i32
    ensures { after (told result (piece_from found.new piece_start.new piece_size.new)) (hand_from bytes.new position.new given.new) ≡ next_piece (hand_from bytes.old position.old given.old) buffer.now most }
{
    let mut message = sctp_receive_hand::hand(*bytes, *position, *given);
    let answer = message.next(buffer, most);
    let left = sctp_receive_hand::piece(message, answer);
    *bytes = left.bytes;
    *position = left.position;
    *given = left.given;
    *found = left.found;
    *piece_start = left.start;
    *piece_size = left.size;
    left.code
}
