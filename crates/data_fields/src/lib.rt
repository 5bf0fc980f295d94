// The fields of a DATA chunk (RFC 4960 section 3.3.1) before its user data, and its flags byte: what the queues hold of a chunk. Reading and writing the chunk
// is crate `chunk_payload_data`.
#![tactic(auto)]

ghost use Rattle.std.specs.Prelude.{◌≡◌, ◌≤◌};
ghost use Rattle.data_fields.specs.Fields.{data_flags, weighed};

// The fields of a DATA chunk before its user data; the payload identifier is the number as it was sent.
#[derive(Clone, Copy)]
pub struct ChunkPayloadData {
    pub unordered: bool,
    pub beginning_fragment: bool,
    pub ending_fragment: bool,
    pub immediate_sack: bool,
    pub tsn: u32,
    pub stream_identifier: u16,
    pub stream_sequence_number: u16,
    pub payload_type: u32,
}

// One flag's weight, where it is set.
fn weight(flag: bool, of: u8) -> u8
    ensures { (result ≡ weighed of flag) × (result ≤ of) }
{
    if flag { of } else { 0 }
}

// The flags byte of these fields.
pub fn flags_of(fields: ChunkPayloadData) -> u8
    ensures { result ≡ data_flags fields }
{
    let ending = weight(fields.ending_fragment, 1);
    let beginning = weight(fields.beginning_fragment, 2);
    let unordered = weight(fields.unordered, 4);
    let immediate = weight(fields.immediate_sack, 8);
    ending + beginning + unordered + immediate
}
