// No second outcome fits: for every public call any two outcomes that meet its promise are equal, as words and bytes. The theorems stand in proofs/.
#![tactic(auto)]

pub fn stated() -> bool {
    true
}
