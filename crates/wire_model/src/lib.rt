// Bytes and refusals: big-endian numbers, bytes at the front of a buffer, and what an answer tells. The definitions that nearly every promise names (specs/).
// A crate whose proofs are to be checked has a function, and this is all.
#![tactic(auto)]

pub fn stated() -> bool {
    true
}
