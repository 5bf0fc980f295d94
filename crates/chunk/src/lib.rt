// What all chunks share: the header.
#![tactic(auto)]

pub mod chunk_header;
