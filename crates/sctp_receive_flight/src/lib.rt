// What the C calls of the in-flight queue share: the queue of the counts that C keeps, and the answer that a call was done.
#![tactic(auto)]

ghost use Rattle.std.specs.Prelude.{◌≡◌};
ghost use Rattle.payload_model.specs.Answers.{done_told};
ghost use Rattle.sctp_receive_result.specs.Result.{back, done};
ghost use Rattle.sctp_receive_flight.specs.InFlight.{flight_counts};

use inflight_queue::{Counts, InFlightQueue};
use refusal::Refusal;

// The queue of the two counts.
pub fn queue(count: usize, n_bytes: usize) -> InFlightQueue
    ensures { result ≡ flight_counts count n_bytes }
{
    InFlightQueue {
        counts: Counts { count, n_bytes },
    }
}

// That it was done: -1 or the refusal's number.
pub fn done(answer: Result<(), Refusal>) -> i32
    ensures { done (back result) ≡ done_told answer }
{
    match answer {
        Ok(()) => -1,
        Err(reason) => sctp_receive_result::refused(reason),
    }
}
