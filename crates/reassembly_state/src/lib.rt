// The state of a reassembly queue, of one stream: its counts, what is asked of them before anything else, and what every call's answer is.
// The calls of crate `reassembly_queue` take and give the same counts.
#![tactic(auto)]

ghost use Rattle.std.specs.Prelude.{◌≡◌, ◌*◌, length};
ghost use Rattle.reassembly_state.specs.Limits.{frags_most};
ghost use Rattle.refusal.specs.Told.{count_told};
ghost use Rattle.reassembly_state.specs.State.{state_of, unsound, num_bytes};

use refusal::Refusal;

// The sizes, stated once. `specs/Limits.antt` states them once for the proofs.
pub const FRAGMENTS: usize = 512;

pub const BYTES: usize = 65536;

// The words of the table that the host lends to every call and hands on unaltered.
pub const WORDS: usize = 4 * FRAGMENTS;

// The counts of a queue; the records stand in the lent table and their bytes in the lent pool: finished unordered messages, oldest first, then loose
// unordered fragments, then ordered sets.
#[derive(Clone, Copy)]
pub struct Counts {
    pub si: u16,
    pub next_ssn: u16,
    pub max_message_size: u32,
    pub finished: usize,
    pub unordered: usize,
    pub ordered: usize,
    pub n_bytes: usize,
}

impl Counts {
    // Refusal 0: a count above its table, a pool shorter than its limit, a place outside the pool, or a byte count that is not the sum of the
    // held lengths. No two places can share a byte.
    pub fn unsound(self, table: &[u32], pool: &[u8]) -> bool
        requires { length table.now ≡ 4 * frags_most }
        ensures { result ≡ unsound (state_of self table.now pool.now) }
    {
        if FRAGMENTS < self.finished {
            return true;
        }
        let left = FRAGMENTS - self.finished;
        if left < self.unordered {
            return true;
        }
        if left - self.unordered < self.ordered {
            return true;
        }
        let room = pool.len();
        if room < BYTES {
            return true;
        }
        let count = self.finished + (self.unordered + self.ordered);
        let sum = fragments::sum_long(table, FRAGMENTS, 0, count);
        if room < sum {
            return true;
        }
        sum != self.n_bytes
    }

    // The number of bytes held.
    pub fn get_num_bytes(self, table: &[u32; WORDS], pool: &[u8]) -> Result<usize, Refusal>
        ensures { count_told result ≡ num_bytes (state_of self table.now pool.now) }
    {
        if self.unsound(table, pool) {
            return Err(Refusal::Unsound);
        }
        Ok(self.n_bytes)
    }
}
