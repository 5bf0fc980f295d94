// The sender's in-flight queue: which chunks were sent and not yet taken out, what became of each, and which bytes of them are not released. The
// crates below have the calls' code, over the counts of crate `inflight_model`.
// A call that neither needs nor changes the numbers of messages is not lent them: its promise is for whatever numbers stand beside the records.
#![tactic(auto)]

ghost use Rattle.std.specs.Prelude.{◌≡◌, List, ℕ};
ghost use Rattle.refusal.specs.Told.{flag_told, count_told};
ghost use Rattle.payload_model.specs.Queue.{row_of};
ghost use Rattle.payload_model.specs.Answers.{done_told};
ghost use Rattle.inflight_model.specs.Queue.{after, pushed_no_check, marked_acked, marked_all, abandoned, popped, popped_up_to, got, counted, is_empty, num_bytes};
ghost use Rattle.inflight_model.specs.Answers.{taken_told};
ghost use Rattle.inflight_queue.specs.Queue.{queue_of, fresh};

use data_fields::ChunkPayloadData;
pub use inflight_model::{Counts, Sent};
pub use payload_model::{Queued, TSNS, WORDS};
use refusal::Refusal;

// The counts; the records stand in the lent table, and beside them, in the lent list, the number of each one's message.
#[derive(Clone, Copy)]
pub struct InFlightQueue {
    pub counts: Counts,
}

impl InFlightQueue {
    // A fresh queue; the table and the list lent to it may hold anything.
    pub fn new() -> Self
        ensures { result ≡ fresh }
    {
        InFlightQueue {
            counts: inflight_fresh::fresh(),
        }
    }

    // Stores the chunk by its TSN, without a mark, and the number of its message beside it; 18 where the TSN is held, 8 where no room is left.
    pub fn push_no_check(
        &mut self,
        table: &mut [u32; WORDS],
        messages: &mut [u64; TSNS],
        chunk: ChunkPayloadData,
        size: u16,
        message: u64,
    ) -> Result<(), Refusal>
        ensures { after (done_told result) (queue_of self.new table.new messages.new) ≡ pushed_no_check (queue_of self.old table.old messages.old) (row_of chunk size) message }
    {
        inflight_push::push_no_check(&mut self.counts, table, messages, chunk, size, message)
    }

    // Acknowledges the chunk with this TSN, and releases its bytes: as many as it still held; 0 where none is held with this TSN.
    pub fn mark_as_acked(&mut self, table: &mut [u32; WORDS], tsn: u32) -> Result<usize, Refusal>
        ensures { (ms : List ℕ) → after (count_told result) (queue_of self.new table.new ms) ≡ marked_acked (queue_of self.old table.old ms) tsn }
    {
        inflight_marks::mark_as_acked(&mut self.counts, table, tsn)
    }

    // Marks every chunk to be sent again that is neither acknowledged nor abandoned. The counts stay as they are.
    pub fn mark_all_to_retransmit(self, table: &mut [u32; WORDS]) -> Result<(), Refusal>
        ensures { (ms : List ℕ) → after (done_told result) (queue_of self table.new ms) ≡ marked_all (queue_of self table.old ms) }
    {
        inflight_marks::mark_all_to_retransmit(self.counts, table)
    }

    // Abandons every chunk of this message, and releases their bytes: as many as they still held.
    pub fn abandon_message(
        &mut self,
        table: &mut [u32; WORDS],
        messages: &[u64; TSNS],
        message: u64,
    ) -> Result<usize, Refusal>
        ensures { after (count_told result) (queue_of self.new table.new messages.now) ≡ abandoned (queue_of self.old table.old messages.now) message }
    {
        inflight_abandon::abandon_message(&mut self.counts, table, messages, message)
    }

    // Removes and gives the first chunk, if its TSN is this one.
    pub fn pop(
        &mut self,
        table: &mut [u32; WORDS],
        messages: &mut [u64; TSNS],
        tsn: u32,
    ) -> Result<Option<Sent>, Refusal>
        ensures { after (taken_told result) (queue_of self.new table.new messages.new) ≡ popped (queue_of self.old table.old messages.old) tsn }
    {
        inflight_pop::pop(&mut self.counts, table, messages, tsn)
    }

    // Drops every TSN at or before this one.
    pub fn pop_up_to(
        &mut self,
        table: &mut [u32; WORDS],
        messages: &mut [u64; TSNS],
        tsn: u32,
    ) -> Result<(), Refusal>
        ensures { after (done_told result) (queue_of self.new table.new messages.new) ≡ popped_up_to (queue_of self.old table.old messages.old) tsn }
    {
        inflight_take::pop_up_to(&mut self.counts, table, messages, tsn)
    }

    // The chunk that is held with this TSN.
    pub fn get(
        self,
        table: &[u32; WORDS],
        messages: &[u64; TSNS],
        tsn: u32,
    ) -> Result<Option<Sent>, Refusal>
        ensures { taken_told result ≡ got (queue_of self table.now messages.now) tsn }
    {
        inflight_take::get(self.counts, table, messages, tsn)
    }

    // The sum of the lengths that are not released.
    pub fn get_num_bytes(self, table: &[u32; WORDS]) -> Result<usize, Refusal>
        ensures { (ms : List ℕ) → count_told result ≡ num_bytes (queue_of self table.now ms) }
    {
        inflight_counts::get_num_bytes(self.counts, table)
    }

    // How many TSNs are held.
    pub fn len(self, table: &[u32; WORDS]) -> Result<usize, Refusal>
        ensures { (ms : List ℕ) → count_told result ≡ counted (queue_of self table.now ms) }
    {
        inflight_counts::len(self.counts, table)
    }

    // Whether none is held.
    pub fn is_empty(self, table: &[u32; WORDS]) -> Result<bool, Refusal>
        ensures { (ms : List ℕ) → flag_told result ≡ is_empty (queue_of self table.now ms) }
    {
        inflight_counts::is_empty(self.counts, table)
    }
}
