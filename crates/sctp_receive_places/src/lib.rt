// Where the parts that the codecs hand out lie, as C has them: the definitions that the promises of crate `sctp_receive` name (specs/).
// A crate whose proofs are to be checked has a function, and this is all.
#![tactic(auto)]

pub fn stated() -> bool {
    true
}
