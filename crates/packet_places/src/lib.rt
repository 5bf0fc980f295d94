// The chunk at a place of a packet as a part of it, and the place behind that chunk.
#![tactic(auto)]

ghost use Rattle.std.specs.Prelude.{◌≡◌};
ghost use Rattle.packet_places.specs.Walk.{lies, bytes_at, place_after};

// The bytes of the chunk at a place, as a part of the packet; empty where there is none.
pub fn bytes_at(packet: &[u8], at: usize) -> &[u8]
    ensures { lies result ≡ bytes_at packet.entry at }
{
    match packet_chunks::chunk_at(packet, at) {
        Ok(Some(found)) => &packet[at..found.end],
        Ok(None) => &packet[..0],
        Err(_) => &packet[..0],
    }
}

// The place behind the chunk at a place; that place itself where there is none.
pub fn place_after(packet: &[u8], at: usize) -> usize
    ensures { result ≡ place_after packet.now at }
{
    match packet_chunks::chunk_at(packet, at) {
        Ok(Some(found)) => found.next,
        Ok(None) => at,
        Err(_) => at,
    }
}
