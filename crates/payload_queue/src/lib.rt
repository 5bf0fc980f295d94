// The TSN queue: which TSNs came, in which order they stand, and which came twice. The crates below have the calls' code.
#![tactic(auto)]

ghost use Rattle.std.specs.Prelude.{◌≡◌};
ghost use Rattle.payload_model.specs.Queue.{after, row_of, pushed, can_push, popped, popped_up_to, popped_duplicates, got, contains_stream, counted, is_empty, num_bytes, last_tsn};
ghost use Rattle.payload_model.specs.GapCall.{lists, gap_report};
ghost use Rattle.payload_model.specs.Answers.{taken_told, last_told, done_told, handed_told};
ghost use Rattle.refusal.specs.Told.{flag_told, count_told};
ghost use Rattle.payload_queue.specs.Queue.{queue_of, fresh};

use data_fields::ChunkPayloadData;
pub use payload_model::{Counts, Duplicates, LOG, Queued, TSNS, WORDS};
use refusal::Refusal;

// The counts and the log of duplicates; the records stand in the lent table.
#[derive(Clone, Copy)]
pub struct PayloadQueue {
    pub counts: Counts,
}

impl PayloadQueue {
    // A fresh queue; the table lent to it may hold anything.
    pub fn new() -> Self
        ensures { result ≡ fresh }
    {
        PayloadQueue {
            counts: payload_fresh::fresh(),
        }
    }

    // Whether the TSN is neither held nor at or before the cumulative one. Yes too of one that is opposite to it and not held, which push refuses.
    pub fn can_push(self, table: &[u32; WORDS], tsn: u32, cumulative: u32) -> Result<bool, Refusal>
        ensures { flag_told result ≡ can_push (queue_of self table.now) tsn cumulative }
    {
        payload_can_push::can_push(self.counts, table, tsn, cumulative)
    }

    // Stores the chunk by its TSN: true; or logs its TSN where it is held or old: false. 17, ahead of these, where it is opposite to the
    // cumulative one; 8 where no room is left.
    pub fn push(
        &mut self,
        table: &mut [u32; WORDS],
        chunk: ChunkPayloadData,
        size: u16,
        cumulative: u32,
    ) -> Result<bool, Refusal>
        ensures { after (flag_told result) (queue_of self.new table.new) ≡ pushed (queue_of self.old table.old) (row_of chunk size) cumulative }
    {
        payload_push::push(&mut self.counts, table, chunk, size, cumulative)
    }

    // Removes and gives the first chunk, if its TSN is this one.
    pub fn pop(&mut self, table: &mut [u32; WORDS], tsn: u32) -> Result<Option<Queued>, Refusal>
        ensures { after (taken_told result) (queue_of self.new table.new) ≡ popped (queue_of self.old table.old) tsn }
    {
        payload_pop::pop(&mut self.counts, table, tsn)
    }

    // Drops every TSN at or before this one.
    pub fn pop_up_to(&mut self, table: &mut [u32; WORDS], tsn: u32) -> Result<(), Refusal>
        ensures { after (done_told result) (queue_of self.new table.new) ≡ popped_up_to (queue_of self.old table.old) tsn }
    {
        payload_take::pop_up_to(&mut self.counts, table, tsn)
    }

    // The chunk that is held with this TSN.
    pub fn get(self, table: &[u32; WORDS], tsn: u32) -> Result<Option<Queued>, Refusal>
        ensures { taken_told result ≡ got (queue_of self table.now) tsn }
    {
        payload_look::get(self.counts, table, tsn)
    }

    // Hands out the log of duplicates, and empties it.
    pub fn pop_duplicates(&mut self, table: &[u32; WORDS]) -> Result<Duplicates, Refusal>
        ensures { after (handed_told result) (queue_of self.new table.now) ≡ popped_duplicates (queue_of self.old table.now) }
    {
        payload_take::pop_duplicates(&mut self.counts, table)
    }

    // The gap report: starts and ends of its blocks go to the front of the lent lists, and their count is the answer; 10 where a list is too short.
    pub fn get_gap_ack_blocks(
        self,
        table: &[u32; WORDS],
        cumulative: u32,
        starts: &mut [u16],
        ends: &mut [u16],
    ) -> Result<usize, Refusal>
        ensures { lists (count_told result) starts.new ends.new ≡ gap_report (queue_of self table.now) cumulative starts.old ends.old }
    {
        payload_look::get_gap_ack_blocks(self.counts, table, cumulative, starts, ends)
    }

    // The TSN that stands last.
    pub fn get_last_tsn_received(self, table: &[u32; WORDS]) -> Result<Option<u32>, Refusal>
        ensures { last_told result ≡ last_tsn (queue_of self table.now) }
    {
        payload_held::get_last_tsn_received(self.counts, table)
    }

    // The sum of the held data lengths.
    pub fn get_num_bytes(self, table: &[u32; WORDS]) -> Result<usize, Refusal>
        ensures { count_told result ≡ num_bytes (queue_of self table.now) }
    {
        payload_counts::get_num_bytes(self.counts, table)
    }

    // How many TSNs are held.
    pub fn len(self, table: &[u32; WORDS]) -> Result<usize, Refusal>
        ensures { count_told result ≡ counted (queue_of self table.now) }
    {
        payload_counts::len(self.counts, table)
    }

    // Whether none is held.
    pub fn is_empty(self, table: &[u32; WORDS]) -> Result<bool, Refusal>
        ensures { flag_told result ≡ is_empty (queue_of self table.now) }
    {
        payload_counts::is_empty(self.counts, table)
    }

    // Whether a chunk of this stream is held.
    pub fn contains_stream(self, table: &[u32; WORDS], stream: u16) -> Result<bool, Refusal>
        ensures { flag_told result ≡ contains_stream (queue_of self table.now) stream }
    {
        payload_held::contains_stream(self.counts, table, stream)
    }
}
