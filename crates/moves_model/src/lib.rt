// Lists with a part put in, taken out or turned round: the definitions that the leaves of pools and tables promise by (specs/), and the laws that their loops need
// (proofs/). A crate whose proofs are to be checked has a function, and this is all.
#![tactic(auto)]

pub fn stated() -> bool {
    true
}
