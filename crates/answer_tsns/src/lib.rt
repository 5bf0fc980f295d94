// The TSN queue and the sender's in-flight queue with the tables that are lent to them, and their calls.
#![tactic(auto)]

pub mod flight;
mod rows;
pub mod tsns;
