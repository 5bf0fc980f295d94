// The SACK chunk.
ghost use Rattle.std.specs.Prelude.{◌≡◌, length};
ghost use Rattle.wire_model.specs.Refusal.{written};
ghost use Rattle.chunk_selective_ack.specs.Layout.{sack, block};
ghost use Rattle.chunk_selective_ack.specs.Sack.{SackFront, sack_read, BlockFront, block_read, TsnFront, tsn_read, sack_written};
ghost use Rattle.sctp_receive_result.specs.Result.{told};
ghost use Rattle.sctp_receive_places.specs.Places.{span, blocks_span, duplicates_span};

use sctp_receive_result::{counted, refused};

// The fields of the SACK chunk that the lent bytes begin with: cumulative TSN, a_rwnd, and the counts of the two lists; 1 2 3 5.
#[unsafe(no_mangle)]
pub extern "C" fn sctp_receive_sack_unmarshal(
    raw: &[u8],
    cumulative: &mut u32,
    window: &mut u32,
    blocks: &mut u16,
    duplicates: &mut u16,
) -> i32
    ensures { (f : SackFront raw.now) → told result (sack cumulative.new window.new blocks.new duplicates.new) ≡ sack_read (length raw.now) f.fields }
{
    *cumulative = 0;
    *window = 0;
    *blocks = 0;
    *duplicates = 0;
    let answer = chunk_selective_ack::unmarshal(raw);
    match answer {
        Ok(s) => {
            *cumulative = s.cumulative_tsn_ack;
            *window = s.advertised_receiver_window_credit;
            *blocks = s.gap_ack_blocks;
            *duplicates = s.duplicate_tsns;
            -1
        }
        Err(e) => refused(e),
    }
}

// Where the gap ack blocks of the chunk that the lent bytes begin with stand in them; 1 2 3 5.
#[unsafe(no_mangle)]
pub extern "C" fn sctp_receive_sack_gap_ack_blocks(
    raw: &[u8],
    start: &mut usize,
    size: &mut usize,
) -> i32
    ensures { (f : SackFront raw.now) → told result (span start.new size.new) ≡ blocks_span (length raw.now) f.fields }
{
    let answer = chunk_selective_ack::unmarshal(raw);
    match answer {
        Ok(s) => {
            *start = 16;
            *size = 4 * (s.gap_ack_blocks as usize);
            -1
        }
        Err(e) => {
            *start = 0;
            *size = 0;
            refused(e)
        }
    }
}

// Where the duplicate TSNs of the chunk that the lent bytes begin with stand in them; 1 2 3 5.
#[unsafe(no_mangle)]
pub extern "C" fn sctp_receive_sack_duplicate_tsns(
    raw: &[u8],
    start: &mut usize,
    size: &mut usize,
) -> i32
    ensures { (f : SackFront raw.now) → told result (span start.new size.new) ≡ duplicates_span (length raw.now) f.fields }
{
    let answer = chunk_selective_ack::unmarshal(raw);
    match answer {
        Ok(s) => {
            *start = 16 + 4 * (s.gap_ack_blocks as usize);
            *size = 4 * (s.duplicate_tsns as usize);
            -1
        }
        Err(e) => {
            *start = 0;
            *size = 0;
            refused(e)
        }
    }
}

// The gap ack block at an index of such a part; 11.
#[unsafe(no_mangle)]
pub extern "C" fn sctp_receive_sack_gap_ack_block_at(
    part: &[u8],
    i: usize,
    start: &mut u16,
    end: &mut u16,
) -> i32
    ensures { (f : BlockFront part.now i) → told result (block start.new end.new) ≡ block_read part.now i f.fields }
{
    let answer = chunk_selective_ack::gap_ack_block_at(part, i);
    match answer {
        Ok(b) => {
            *start = b.start;
            *end = b.end;
            -1
        }
        Err(e) => {
            *start = 0;
            *end = 0;
            refused(e)
        }
    }
}

// The duplicate TSN at an index of such a part; 11.
#[unsafe(no_mangle)]
pub extern "C" fn sctp_receive_sack_duplicate_tsn_at(part: &[u8], i: usize, tsn: &mut u32) -> i32
    ensures { (f : TsnFront part.now i) → told result tsn.new ≡ tsn_read part.now i f.fields }
{
    let answer = chunk_selective_ack::duplicate_tsn_at(part, i);
    match answer {
        Ok(t) => {
            *tsn = t;
            -1
        }
        Err(e) => {
            *tsn = 0;
            refused(e)
        }
    }
}

// The SACK chunk of these fields and lists, written to the front of the lent buffer; n is its byte count; 9 and 10.
#[unsafe(no_mangle)]
pub extern "C" fn sctp_receive_sack_marshal_to(
    out: &mut [u8],
    cumulative: u32,
    window: u32,
    starts: &[u16],
    ends: &[u16],
    duplicates: &[u32],
    n: &mut usize,
) -> i32
    ensures { written (told result n.new) out.new ≡ sack_written cumulative window starts.now ends.now duplicates.now out.old }
{
    let answer = chunk_selective_ack::marshal_to(out, cumulative, window, starts, ends, duplicates);
    counted(answer, n)
}
