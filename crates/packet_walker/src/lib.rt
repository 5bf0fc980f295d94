// A walk over the chunks of a packet: the packet and a place in it, kept together, and thin calls over those that take both, two of which are handed on.
#![tactic(auto)]

ghost use Rattle.std.specs.Prelude.{◌≡◌};
ghost use Rattle.packet_chunks.specs.Chunks.{step_told, step_at};
ghost use Rattle.packet_places.specs.Walk.{lies, bytes_at, place_after};

use packet_chunks::Found;
pub use packet_places::{bytes_at, place_after};
use refusal::Refusal;

#[derive(Clone, Copy)]
pub struct Walker<'a> {
    pub packet: &'a [u8],
    pub place: usize,
}

impl<'a> Walker<'a> {
    // A walk starts behind the common header.
    pub fn new(packet: &'a [u8]) -> Walker<'a>
        ensures { (result.packet ≡ packet.entry) × (result.place ≡ 12) }
    {
        Walker { packet, place: 12 }
    }

    // What stands at its place: a chunk, none at the end, or what is refused.
    pub fn step(self) -> Result<Option<Found>, Refusal>
        ensures { step_told result ≡ step_at self.entry.packet.now self.entry.place }
    {
        packet_chunks::chunk_at(self.packet, self.place)
    }

    // The bytes of that chunk, as a part of the packet; empty where there is none.
    pub fn chunk(self) -> &'a [u8]
        ensures { lies result ≡ bytes_at self.entry.packet self.entry.place }
    {
        bytes_at(self.packet, self.place)
    }

    // The walk behind that chunk; the same where there is none.
    pub fn next(self) -> Walker<'a>
        ensures { (result.packet ≡ self.entry.packet) × (result.place ≡ place_after self.entry.packet.now self.entry.place) }
    {
        let place = place_after(self.packet, self.place);
        Walker {
            packet: self.packet,
            place,
        }
    }
}
