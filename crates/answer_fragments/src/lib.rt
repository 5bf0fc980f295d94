// The reassembly queue of a stream with what is lent to it, the message in hand, and their calls.
#![tactic(auto)]

mod hand;
pub mod reassembly;
mod rows;
