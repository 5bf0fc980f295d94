// An unordered chunk pushed to one of eight streams.
#![tactic(auto)]

ghost use Rattle.std.specs.Prelude.{◌≡◌, false, ◌*◌, ◌<◌, length};
ghost use Rattle.refusal.specs.Told.{flag_told};
ghost use Rattle.reassembly_state.specs.Limits.{frags_most};
ghost use Rattle.reassembly_state.specs.Model.{push_unordered};
ghost use Rattle.reassembly_state.specs.State.{fragment_of};
ghost use Rattle.streams_model.specs.Limits.{streams_most};
ghost use Rattle.streams_model.specs.State.{state_of, unsound, own, after, laid};
ghost use Rattle.streams_model.specs.Among.{roomy_if};

use data_fields::ChunkPayloadData;
use refusal::Refusal;
use streams_model::Streams;

// The streams before it count as finished fragments of its queue, those behind it as ordered ones: no unordered push looks at either.
pub fn push(
    streams: &mut Streams,
    table: &mut [u32],
    pool: &mut [u8],
    stream: usize,
    chunk: ChunkPayloadData,
    user_data: &[u8],
    room: bool,
) -> Result<bool, Refusal>
    requires table_len { length table.old ≡ 4 * frags_most }
    requires pool_value { unsound (state_of streams.old table.old pool.old) ≡ false }
    requires stream_lt_streams_most { stream < streams_most }
    requires roomy_if { roomy_if room (state_of streams.old table.old pool.old) (length user_data.now) }
    ensures { after (flag_told result) (state_of streams.new table.new pool.new) ≡ laid (state_of streams.old table.old pool.old) stream (push_unordered room (own (state_of streams.old table.old pool.old) stream) (fragment_of chunk user_data.now)) }
{
    let among = streams_parts::among_all(*streams, stream);
    let mut queue = among.queue;
    let answer = reassembly_unordered::push(&mut queue, table, pool, chunk, user_data, room);
    streams_parts::put_back(streams, stream, queue, among.before, among.behind);
    answer
}
