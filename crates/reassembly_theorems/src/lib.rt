// Theorems about the promises of crate `reassembly_queue`: what is laid is what is seen again, every call leaves a sound queue sound, and a
// message comes exactly where the queue is readable. They stand in proofs/, as in `chunk_theorems`.
#![tactic(auto)]

pub fn stated() -> bool {
    true
}
