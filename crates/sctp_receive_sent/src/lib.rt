// A chunk of the in-flight queue, taken apart for C: 0 and false beside a refusal and beside nothing, and the result is -1 or the refusal's number.
#![tactic(auto)]

ghost use Rattle.std.specs.Prelude.{◌≡◌};
ghost use Rattle.inflight_model.specs.Answers.{taken_told};
ghost use Rattle.inflight_model.specs.Queue.{nothing_sent};
ghost use Rattle.sctp_receive_result.specs.Result.{told, back};
ghost use Rattle.sctp_receive_values.specs.Fields.{values_from, found_from};
ghost use Rattle.sctp_receive_flight.specs.InFlight.{given_from};

use data_fields::ChunkPayloadData;
use inflight_queue::Sent;
use refusal::Refusal;

// The result, and each value that goes to C through a reference of its own.
#[derive(Clone, Copy)]
pub struct SentChunk {
    pub code: i32,
    pub found: bool,
    pub chunk: ChunkPayloadData,
    pub size: u16,
    pub acked: bool,
    pub abandoned: bool,
    pub retransmit: bool,
    pub message_id: u64,
}

// A chunk with its data length, its marks and its message's number, if one was found.
#[tactic(auto, unfolding(data_fields::specs::Fields::data_held, payload_model::specs::Answers::queued_found, inflight_model::specs::Answers::sent_given))]
pub fn sent(answer: Result<Option<Sent>, Refusal>) -> SentChunk
    ensures { told (back result.code) (given_from (found_from result.found (values_from result.chunk.unordered result.chunk.beginning_fragment result.chunk.ending_fragment result.chunk.immediate_sack result.chunk.tsn result.chunk.stream_identifier result.chunk.stream_sequence_number result.chunk.payload_type) result.size) result.acked result.abandoned result.retransmit result.message_id) ≡ taken_told answer }
{
    match answer {
        Ok(Some(s)) => {
            let q = s.queued;
            SentChunk {
                code: -1,
                found: true,
                chunk: q.chunk,
                size: q.size,
                acked: s.acked,
                abandoned: s.abandoned,
                retransmit: s.retransmit,
                message_id: s.message_id,
            }
        }
        Ok(None) => none_sent(-1),
        Err(reason) => none_sent(sctp_receive_result::refused(reason)),
    }
}

// No chunk, beside this result.
fn none_sent(code: i32) -> SentChunk
    ensures { told (back result.code) (given_from (found_from result.found (values_from result.chunk.unordered result.chunk.beginning_fragment result.chunk.ending_fragment result.chunk.immediate_sack result.chunk.tsn result.chunk.stream_identifier result.chunk.stream_sequence_number result.chunk.payload_type) result.size) result.acked result.abandoned result.retransmit result.message_id) ≡ told (back code) nothing_sent }
{
    let chunk = ChunkPayloadData {
        unordered: false,
        beginning_fragment: false,
        ending_fragment: false,
        immediate_sack: false,
        tsn: 0,
        stream_identifier: 0,
        stream_sequence_number: 0,
        payload_type: 0,
    };
    SentChunk {
        code,
        found: false,
        chunk,
        size: 0,
        acked: false,
        abandoned: false,
        retransmit: false,
        message_id: 0,
    }
}
