// The TSN queue's counts, out of the fields that C keeps and back into them, and the log that C keeps: a TSN noted in it.
#![tactic(auto)]

ghost use Rattle.std.specs.Prelude.{◌≡◌};
ghost use Rattle.payload_model.specs.Log.{noted};
ghost use Rattle.payload_model.specs.Queue.{zeros};
ghost use Rattle.sctp_receive_counts.specs.States.{tsn_counts};

use payload_queue::{Counts, LOG, PayloadQueue};

// The queue of the counts that C keeps, with a log of zeros: C's own log stays where it is, since only pop_duplicates looks at it.
pub fn of_counts(count: usize, n_bytes: usize, dups: usize) -> PayloadQueue
    ensures { result ≡ tsn_counts count n_bytes dups zeros }
{
    PayloadQueue {
        counts: Counts {
            count,
            n_bytes,
            dups,
            dup_tsn: [0u32; LOG],
        },
    }
}

// The queue's counts, put back into the fields that C keeps.
pub fn put_counts(queue: PayloadQueue, count: &mut usize, n_bytes: &mut usize, dups: &mut usize)
    ensures { tsn_counts count.new n_bytes.new dups.new queue.counts.dup_tsn ≡ queue }
{
    *count = queue.counts.count;
    *n_bytes = queue.counts.n_bytes;
    *dups = queue.counts.dups;
}

// A TSN, put behind the first ones of the log where it now holds more than those.
pub fn note(log: &mut [u32], at: usize, dups: usize, tsn: u32)
    ensures { log.new ≡ noted log.old at dups tsn }
{
    if at < dups {
        if at < log.len() {
            log[at] = tsn;
        }
    }
}
