// The state of the sender's in-flight queue, and a chunk of it as a call gives it. What the calls do with them is defined in specs/, and theorems
// over whole runs of calls stand in proofs/. The calls of crate `inflight_queue` keep the same counts.
#![tactic(auto)]

use payload_model::Queued;

// The counts of a queue; the records stand in the lent table, and beside them, in a lent list, the number of each one's message.
#[derive(Clone, Copy)]
pub struct Counts {
    pub count: usize,
    pub n_bytes: usize,
}

// A chunk as it is held: its header fields and the length of its data that is not released, its marks, and the number of its message.
#[derive(Clone, Copy)]
pub struct Sent {
    pub queued: Queued,
    pub acked: bool,
    pub abandoned: bool,
    pub retransmit: bool,
    pub message_id: u64,
}
