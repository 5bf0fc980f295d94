// The TSN queue's answers, taken apart for C: yes or no goes through its reference, a chunk's values come back by value; 0 and false beside a refusal, and the result is
// -1 or the refusal's number.
#![tactic(auto)]

ghost use Rattle.std.specs.Prelude.{◌≡◌};
ghost use Rattle.payload_model.specs.Queue.{nothing};
ghost use Rattle.payload_model.specs.Answers.{taken_told};
ghost use Rattle.refusal.specs.Told.{flag_told};
ghost use Rattle.sctp_receive_result.specs.Result.{told, back};
ghost use Rattle.sctp_receive_values.specs.Fields.{values_from, found_from};

use data_fields::ChunkPayloadData;
use payload_queue::Queued;
use refusal::Refusal;
use sctp_receive_result::refused;

// Yes or no.
pub fn flag(answer: Result<bool, Refusal>, is: &mut bool) -> i32
    ensures { told (back result) is.new ≡ flag_told answer }
{
    match answer {
        Ok(b) => {
            *is = b;
            -1
        }
        Err(e) => {
            *is = false;
            refused(e)
        }
    }
}

// The result, and each value of a chunk that goes to C through a reference of its own.
#[derive(Clone, Copy)]
pub struct TakenChunk {
    pub code: i32,
    pub found: bool,
    pub chunk: ChunkPayloadData,
    pub size: u16,
}

// A chunk with its data length, if one was found.
#[tactic(auto, unfolding(data_fields::specs::Fields::data_held, payload_model::specs::Answers::queued_found))]
pub fn taken(answer: Result<Option<Queued>, Refusal>) -> TakenChunk
    ensures { told (back result.code) (found_from result.found (values_from result.chunk.unordered result.chunk.beginning_fragment result.chunk.ending_fragment result.chunk.immediate_sack result.chunk.tsn result.chunk.stream_identifier result.chunk.stream_sequence_number result.chunk.payload_type) result.size) ≡ taken_told answer }
{
    match answer {
        Ok(Some(q)) => TakenChunk {
            code: -1,
            found: true,
            chunk: q.chunk,
            size: q.size,
        },
        Ok(None) => none_taken(-1),
        Err(e) => none_taken(refused(e)),
    }
}

// No chunk, beside this result.
fn none_taken(code: i32) -> TakenChunk
    ensures { told (back result.code) (found_from result.found (values_from result.chunk.unordered result.chunk.beginning_fragment result.chunk.ending_fragment result.chunk.immediate_sack result.chunk.tsn result.chunk.stream_identifier result.chunk.stream_sequence_number result.chunk.payload_type) result.size) ≡ told (back code) nothing }
{
    let chunk = ChunkPayloadData {
        unordered: false,
        beginning_fragment: false,
        ending_fragment: false,
        immediate_sack: false,
        tsn: 0,
        stream_identifier: 0,
        stream_sequence_number: 0,
        payload_type: 0,
    };
    TakenChunk {
        code,
        found: false,
        chunk,
        size: 0,
    }
}
