// The bench sheet of document 01: P1 to P12 as one table of the definitions that the promises cite, in specs/Sheet.antt, and the proof of its
// one claim, in proofs/. Crate `sheet_run` runs the same lines on the code.
#![tactic(auto)]

pub fn stated() -> bool {
    true
}
