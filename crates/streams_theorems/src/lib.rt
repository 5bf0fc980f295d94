// Theorems about eight streams in one pool (document 02, M-112): every call leaves sound streams sound, the parts add to the whole, a stream with
// room answers as its queue alone would, one within its own does so whatever the others do, and demand 3 holds of each. They stand in specs/ and
// proofs/.
#![tactic(auto)]

pub fn stated() -> bool {
    true
}
