// What every call of docs/CALLS.md shares: its operands, its answer, and how both stand in the streams.
#![tactic(auto)]

pub mod answer;
pub mod digest;
pub mod fault;
pub mod operands;
pub mod rooms;
pub mod shown;
