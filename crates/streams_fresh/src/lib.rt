// Eight streams at the start.
#![tactic(auto)]

ghost use Rattle.std.specs.Prelude.{◌≡◌};
ghost use Rattle.streams_model.specs.Shape.{fresh_streams};

use streams_model::Streams;

// Eight fresh queues, of the streams 0 to 7, with one maximum; the table and the pool lent to them may hold anything.
pub fn new(max_message_size: u32) -> Streams
    ensures { result ≡ fresh_streams max_message_size }
{
    Streams::new(max_message_size)
}
