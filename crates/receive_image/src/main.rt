// The main job: an image comes in segments over SCTP, out of order, one of them twice and one late. After each arrival the program shows
// the cumulative TSN, the gap report and the SACK that acknowledges what is held; in the end the image as it is taken.
#![tactic(auto)]

mod receiver;
mod sack;
mod segment;

use receiver::Receiver;
use segment::ARRIVALS;
use std::io;
use std::io::{BufWriter, Write};

fn main(rt: HostRuntime) -> io::Result<()> {
    let mut writer = BufWriter::new(rt.alloc(), rt.stdout())?;
    let mut receiver = Receiver::new();
    for i in ARRIVALS {
        receiver.arrives(&mut writer, i)?;
    }
    receiver.takes(&mut writer)?;
    writer.flush()
}
