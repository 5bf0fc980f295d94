// Arrival order does not matter, skips or not: a theorem over whole runs of the reassembly queue's calls. It stands in specs/ and proofs/.
#![tactic(auto)]

pub fn stated() -> bool {
    true
}
