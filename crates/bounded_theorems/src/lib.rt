// Theorems about bounded skips: on document 01's domain both calls are what the conditions of specs/ say. They stand in proofs/, as in `chunk_theorems`.
#![tactic(auto)]

pub fn stated() -> bool {
    true
}
