// What the C call is made of that applies a FORWARD TSN chunk to the TSN queue. The result is -1 or the refusal's number.
#![tactic(auto)]

ghost use Rattle.std.specs.Prelude.{◌≡◌};
ghost use Rattle.payload_model.specs.Queue as tsns;
ghost use Rattle.forward_tsn_drops.specs.Drops.{applied_to_tsns};
ghost use Rattle.sctp_receive_result.specs.Result.{done, back};
ghost use Rattle.sctp_receive_counts.specs.States.{tsns_from};

// Drops the TSNs up to the new cumulative one; nothing where that is at or before the cumulative one. C's log stays as it is.
pub fn apply_to_tsns(
    count: &mut usize,
    n_bytes: &mut usize,
    dups: &mut usize,
    dup_tsn: &mut [u32; payload_queue::LOG],
    table: &mut [u32; payload_queue::WORDS],
    cumulative_tsn: u32,
    new_cumulative_tsn: u32,
) -> i32
    ensures { tsns.after (done (back result)) (tsns_from count.new n_bytes.new dups.new dup_tsn.new table.new) ≡ applied_to_tsns (tsns_from count.old n_bytes.old dups.old dup_tsn.old table.old) cumulative_tsn new_cumulative_tsn }
{
    let mut queue = sctp_receive_counts::of_counts(*count, *n_bytes, *dups);
    let answer = forward_tsn_drops::apply_to_tsns(
        &mut queue,
        table,
        cumulative_tsn,
        new_cumulative_tsn,
    );
    sctp_receive_counts::put_counts(queue, count, n_bytes, dups);
    match answer {
        Ok(()) => -1,
        Err(e) => sctp_receive_result::refused(e),
    }
}
