// A small image, cut into segments of eight bytes, each of which goes into a DATA chunk; and the order in which they arrive.
use data_fields::ChunkPayloadData;

pub const STREAM: u16 = 7;

// The largest message that the receiver takes.
pub const LARGEST: u32 = 4096;

// The TSN of the first segment. The fifth one's is 0: TSNs wrap.
pub const FIRST: u32 = 4294967292;

// The payload identifier of the image: the loader's own, a number without a name.
const LOADER: u32 = 1280262468;

const IMAGE: [u8; 48] = *b"BOOT 001CLOCK 02GYRO 003STAR 004RADIO 05LOADER 6";

const SEGMENT: usize = 8;

// Which segments arrive: the fourth is late, and the second comes twice.
pub const ARRIVALS: [usize; 7] = [0, 2, 1, 1, 5, 4, 3];

// The chunk of a segment, as it comes over the wire: the first is marked beginning, the last ending. Answers its byte count.
pub fn wire(i: usize, out: &mut [u8]) -> usize {
    let image = IMAGE;
    let (segments, _) = image.as_chunks::<SEGMENT>();
    let Some(segment) = segments.get(i) else {
        return 0;
    };
    let fields = ChunkPayloadData {
        unordered: false,
        beginning_fragment: i == 0,
        ending_fragment: i == 5,
        immediate_sack: false,
        tsn: FIRST.wrapping_add(i as u32),
        stream_identifier: STREAM,
        stream_sequence_number: 0,
        payload_type: LOADER,
    };
    chunk_payload_data::marshal_to(out, fields, segment).unwrap_or(0)
}
