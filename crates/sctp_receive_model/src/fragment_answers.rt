// What reassembly tells of a skip.
ghost use Rattle.std.specs.Prelude.{◌≡◌};
ghost use Rattle.reassembly_state.specs.Answers.{done_told};
ghost use Rattle.sctp_receive_result.specs.Result.{back, done};

use refusal::Refusal;

// Whether a skip was done: -1, or the refusal's number.
pub fn forwarded(answer: Result<(), Refusal>) -> i32
    ensures { done (back result) ≡ done_told answer }
{
    match answer {
        Ok(()) => -1,
        Err(reason) => sctp_receive_result::refused(reason),
    }
}
