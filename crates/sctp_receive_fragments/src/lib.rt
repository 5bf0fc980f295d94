// What the C calls of reassembly are made of: the answers, taken apart: the values, 0 and false beside a refusal, and the result, -1 or the refusal's number.
#![tactic(auto)]

ghost use Rattle.std.specs.Prelude.{◌≡◌};
ghost use Rattle.reassembly_state.specs.Answers.{took_told};
ghost use Rattle.reassembly_applicable.specs.Answers.{applicable_told};
ghost use Rattle.sctp_receive_result.specs.Result.{told, back};
ghost use Rattle.sctp_receive_model.specs.States.{fragment_counts, message_from, found_from};

use chunks::Chunks;
use reassembly_queue::ReassemblyQueue;
use refusal::Refusal;

// What a take leaves and tells, each number by itself, as C has it: storing these one by one is cheaper to prove than lending C's places on.
#[derive(Clone, Copy)]
pub struct TakenMessage {
    pub si: u16,
    pub next_ssn: u16,
    pub max_message_size: u32,
    pub finished: usize,
    pub unordered: usize,
    pub ordered: usize,
    pub n_bytes: usize,
    pub found: bool,
    pub ssn: u16,
    pub ppi: u32,
    pub bytes: usize,
    pub position: usize,
    pub given: bool,
    pub code: i32,
}

// The queue that is left, and a message, if one was taken.
pub fn taken(queue: ReassemblyQueue, answer: Result<Option<Chunks>, Refusal>) -> TakenMessage
    ensures { (fragment_counts result.si result.next_ssn result.max_message_size result.finished result.unordered result.ordered result.n_bytes ≡ queue) × (told (back result.code) (message_from result.found result.ssn result.ppi result.bytes result.position result.given) ≡ took_told answer) }
{
    let counts = queue.counts;
    let mut parts = TakenMessage {
        si: counts.si,
        next_ssn: counts.next_ssn,
        max_message_size: counts.max_message_size,
        finished: counts.finished,
        unordered: counts.unordered,
        ordered: counts.ordered,
        n_bytes: counts.n_bytes,
        found: false,
        ssn: 0,
        ppi: 0,
        bytes: 0,
        position: 0,
        given: false,
        code: -1,
    };
    match answer {
        Ok(Some(m)) => {
            parts.found = true;
            parts.ssn = m.ssn;
            parts.ppi = m.ppi;
            parts.bytes = m.size;
            parts.position = m.position;
            parts.given = m.given;
        }
        Ok(None) => {}
        Err(reason) => parts.code = sctp_receive_result::refused(reason),
    }
    parts
}

// The SSN up to which a skip applies, if there is one.
pub fn applicable(answer: Result<Option<u16>, Refusal>, found: &mut bool, ssn: &mut u16) -> i32
    ensures { told (back result) (found_from found.new ssn.new) ≡ applicable_told answer }
{
    *found = false;
    *ssn = 0;
    match answer {
        Ok(Some(n)) => {
            *found = true;
            *ssn = n;
            -1
        }
        Ok(None) => -1,
        Err(reason) => sctp_receive_result::refused(reason),
    }
}
