// What a C call's result stands for: the definitions that the promises of crate `sctp_receive` name (specs/), the laws that its proofs share (proofs/), the result of
// a call that says no, and a count taken apart.
#![tactic(auto)]

ghost use Rattle.std.specs.Prelude.{◌≡◌};
ghost use Rattle.wire_model.specs.Refusal.{refuse};
ghost use Rattle.refusal.specs.Told.{number, count_told};
ghost use Rattle.sctp_receive_result.specs.Result.{refusal_of, told, back};

use refusal::Refusal;

// The number of the reason.
#[tactic(auto, using(crate::proofs::Codes::back_refuse))]
pub fn refused(reason: Refusal) -> i32
    ensures { refusal_of (back result) ≡ refuse (number reason) }
{
    i32::from(reason.number())
}

// A count, which goes through the reference, 0 beside a refusal; -1 or the refusal's number.
pub fn counted(answer: Result<usize, Refusal>, n: &mut usize) -> i32
    ensures { told (back result) n.new ≡ count_told answer }
{
    match answer {
        Ok(count) => {
            *n = count;
            -1
        }
        Err(e) => {
            *n = 0;
            refused(e)
        }
    }
}
