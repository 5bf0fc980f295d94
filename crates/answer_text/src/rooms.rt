// What is lent to a call beside the queues. It stands once, and a call fills as much of it as it is lent: fresh arrays for each call would all be filled.
use crate::operands::{BYTES, NUMBERS};

#[derive(Clone, Copy)]
pub struct Rooms {
    // A buffer that is written to.
    pub buffer: [u8; BYTES],
    // Patterned data.
    pub data: [u8; BYTES],
    // Lists of numbers.
    pub first: [u16; NUMBERS],
    pub second: [u16; NUMBERS],
    pub third: [u16; NUMBERS],
    pub fourth: [u16; NUMBERS],
    pub words: [u32; NUMBERS],
}

impl Rooms {
    pub fn new() -> Rooms {
        Rooms {
            buffer: [0; BYTES],
            data: [0; BYTES],
            first: [0; NUMBERS],
            second: [0; NUMBERS],
            third: [0; NUMBERS],
            fourth: [0; NUMBERS],
            words: [0; NUMBERS],
        }
    }
}
