// What the fields that C keeps of reassembly and of the message in hand stand for: the definitions that the promises of crate `sctp_receive` name (specs/), the laws
// that its proofs share (proofs/), and what tells of a skip.
#![tactic(auto)]

pub mod fragment_answers;
