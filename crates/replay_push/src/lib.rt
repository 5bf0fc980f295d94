// A captured chunk, read as DATA and pushed to a TSN queue.
#![tactic(auto)]

ghost use Rattle.std.specs.Prelude.{◌≡◌};
ghost use Rattle.wire_model.specs.Refusal.{none};
ghost use Rattle.payload_model.specs.Queue.{after};
ghost use Rattle.refusal.specs.Told.{flag_told};
ghost use Rattle.payload_queue.specs.Queue.{queue_of};
ghost use Rattle.replay_push.specs.Decoded.{decodes, size_of, recorded};

use payload_queue::{PayloadQueue, WORDS};
use refusal::Refusal;

// How many data bytes the DATA chunk has that the lent bytes begin with.
fn data_size(raw: &[u8]) -> u16
    ensures { decodes raw.now ≡ none → result ≡ size_of raw.now }
{
    match chunk_payload_data::header(raw) {
        Ok(h) => h.length - 16,
        Err(_) => 0,
    }
}

// Reads the record's bytes as DATA and pushes the chunk, with cumulative TSN 0: the push's answer, or the refusal of either.
pub fn push_record(
    queue: &mut PayloadQueue,
    table: &mut [u32; WORDS],
    raw: &[u8],
) -> Result<bool, Refusal>
    ensures { after (flag_told result) (queue_of queue.new table.new) ≡ recorded (queue_of queue.old table.old) raw.now }
{
    let chunk = chunk_payload_data::unmarshal(raw)?;
    queue.push(table, chunk, data_size(raw), 0)
}
