// A walk over the chunks of a packet.
use packet_walker::Walker;
use std::io;
use std::io::Write;

// The place and the byte count of each chunk, and what stands at the last place. A packet has fewer chunks than bytes.
pub fn walk<W: Write>(packet: &[u8], out: &mut W) -> io::Result<()> {
    write!(out, "walk")?;
    let mut walker = Walker::new(packet);
    for _ in 0..=packet.len() {
        write!(out, " | {} ", walker.place)?;
        match walker.step() {
            Ok(Some(_)) => write!(out, "{}", walker.chunk().len())?,
            Ok(None) => return write!(out, "none"),
            Err(refusal) => return write!(out, "{refusal}"),
        }
        walker = walker.next();
    }
    Ok(())
}
