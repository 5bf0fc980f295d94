// The state of the TSN queue and what its calls give. What the calls do with it is defined in specs/, and theorems over whole runs of calls
// stand in proofs/.
#![tactic(auto)]

use data_fields::ChunkPayloadData;

// The sizes, stated once. `specs/Limits.antt` states them once for the proofs.
pub const TSNS: usize = 1024;

pub const LOG: usize = 64;

// The words of the table that the host lends to every call and hands on unaltered.
pub const WORDS: usize = 4 * TSNS;

// The counts of a queue and its log of duplicates; the records stand in the lent table.
#[derive(Clone, Copy)]
pub struct Counts {
    pub count: usize,
    pub n_bytes: usize,
    pub dups: usize,
    pub dup_tsn: [u32; LOG],
}

// A chunk as it is held: its header fields and the length of its data.
#[derive(Clone, Copy)]
pub struct Queued {
    pub chunk: ChunkPayloadData,
    pub size: u16,
}

// The log as it is handed out: all its places, unused ones 0, beside their count.
#[derive(Clone, Copy)]
pub struct Duplicates {
    pub count: usize,
    pub tsns: [u32; LOG],
}
