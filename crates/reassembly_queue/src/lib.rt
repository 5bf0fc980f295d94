// Fragments to messages, for one stream. What is taken is a message in hand (crate chunks). The crates below have the calls' code.
#![tactic(auto)]

ghost use Rattle.std.specs.Prelude.{◌≡◌};
ghost use Rattle.refusal.specs.Told.{flag_told, count_told};
ghost use Rattle.reassembly_state.specs.State.{after, pushed, is_readable, reads, read, forward_ordered, forward_unordered, num_bytes};
ghost use Rattle.reassembly_state.specs.Answers.{took_told, done_told};
ghost use Rattle.reassembly_bounded.specs.Bounded.{forward_bounded};
ghost use Rattle.reassembly_applicable.specs.Applicable.{applicable};
ghost use Rattle.reassembly_applicable.specs.Answers.{applicable_told};
ghost use Rattle.reassembly_queue.specs.Queue.{state_of, fresh};

use chunks::Chunks;
use data_fields::ChunkPayloadData;
pub use reassembly_state::{BYTES, Counts, FRAGMENTS, WORDS};
use refusal::Refusal;

// The counts; the records stand in the lent table and their bytes in the lent pool: finished unordered messages, oldest first, then loose
// unordered fragments, then ordered sets.
#[derive(Clone, Copy)]
pub struct ReassemblyQueue {
    pub counts: Counts,
}

impl ReassemblyQueue {
    // A fresh queue of a stream; the table and the pool lent to it may hold anything.
    pub fn new(si: u16, max_message_size: u32) -> Self
        ensures { result ≡ fresh si max_message_size }
    {
        ReassemblyQueue {
            counts: reassembly_fresh::fresh(si, max_message_size),
        }
    }

    // Stores the chunk with its user data: true where that completes a message. False where it is of another stream, old, or there already;
    // 6 where the message would be too large; 8 where no room is left.
    pub fn push(
        &mut self,
        table: &mut [u32; WORDS],
        pool: &mut [u8],
        chunk: ChunkPayloadData,
        user_data: &[u8],
    ) -> Result<bool, Refusal>
        ensures { after (flag_told result) (state_of self.new table.new pool.new) ≡ pushed (state_of self.old table.old pool.old) chunk user_data.now }
    {
        reassembly_push::push(&mut self.counts, table, pool, chunk, user_data)
    }

    // Whether a message can be taken.
    pub fn is_readable(self, table: &[u32; WORDS], pool: &[u8]) -> Result<bool, Refusal>
        ensures { flag_told result ≡ is_readable (state_of self table.now pool.now) }
    {
        reassembly_readable::is_readable(self.counts, table, pool)
    }

    // Takes the oldest finished unordered message, else the first ordered set if it is complete and not after the expected one, to the front
    // of the lent buffer; 10 where that is too short.
    pub fn read(
        &mut self,
        table: &mut [u32; WORDS],
        pool: &mut [u8],
        buffer: &mut [u8],
    ) -> Result<Option<Chunks>, Refusal>
        ensures { reads (took_told result) (state_of self.new table.new pool.new) buffer.new ≡ read (state_of self.old table.old pool.old) buffer.old }
    {
        reassembly_take::read(&mut self.counts, table, pool, buffer)
    }

    // Drops incomplete sets at or before an SSN, and expects the one after it.
    pub fn forward_tsn_for_ordered(
        &mut self,
        table: &mut [u32; WORDS],
        pool: &mut [u8],
        last_ssn: u16,
    ) -> Result<(), Refusal>
        ensures { after (done_told result) (state_of self.new table.new pool.new) ≡ forward_ordered (state_of self.old table.old pool.old) last_ssn }
    {
        reassembly_forward::forward_tsn_for_ordered(&mut self.counts, table, pool, last_ssn)
    }

    // Drops loose unordered fragments from the front up to the first one after a TSN.
    pub fn forward_tsn_for_unordered(
        &mut self,
        table: &mut [u32; WORDS],
        pool: &mut [u8],
        new_cumulative_tsn: u32,
    ) -> Result<(), Refusal>
        ensures { after (done_told result) (state_of self.new table.new pool.new) ≡ forward_unordered (state_of self.old table.old pool.old) new_cumulative_tsn }
    {
        reassembly_forward::forward_tsn_for_unordered(
            &mut self.counts,
            table,
            pool,
            new_cumulative_tsn,
        )
    }

    // Drops incomplete sets at or before an SSN that a cumulative point reaches, and expects the first set that it does not reach, or the SSN after
    // the last, where that is later than what is expected.
    pub fn forward_tsn_for_ordered_bounded(
        &mut self,
        table: &mut [u32; WORDS],
        pool: &mut [u8],
        last_ssn: u16,
        new_cumulative_tsn: u32,
    ) -> Result<(), Refusal>
        ensures { after (done_told result) (state_of self.new table.new pool.new) ≡ forward_bounded (state_of self.old table.old pool.old) last_ssn new_cumulative_tsn }
    {
        reassembly_bounded::forward_tsn_for_ordered_bounded(
            &mut self.counts,
            table,
            pool,
            last_ssn,
            new_cumulative_tsn,
        )
    }

    // The SSN up to which such a skip applies by now: the last, or that of a set before it, or nothing.
    pub fn applicable_forward_tsn_for_ordered_bounded(
        self,
        table: &[u32; WORDS],
        pool: &[u8],
        last_ssn: u16,
        new_cumulative_tsn: u32,
        peer_last_tsn: u32,
    ) -> Result<Option<u16>, Refusal>
        ensures { applicable_told result ≡ applicable (state_of self table.now pool.now) last_ssn new_cumulative_tsn peer_last_tsn }
    {
        reassembly_applicable::applicable_forward_tsn_for_ordered_bounded(
            self.counts,
            table,
            pool,
            last_ssn,
            new_cumulative_tsn,
            peer_last_tsn,
        )
    }

    // The number of bytes held.
    pub fn get_num_bytes(self, table: &[u32; WORDS], pool: &[u8]) -> Result<usize, Refusal>
        ensures { count_told result ≡ num_bytes (state_of self table.now pool.now) }
    {
        self.counts.get_num_bytes(table, pool)
    }
}
