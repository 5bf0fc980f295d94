// What a push to a queue of one stream is made of: what it asks before it stores anything, and the record of a chunk.
#![tactic(auto)]

pub mod record;
pub mod room;
