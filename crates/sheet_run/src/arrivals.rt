// Reassembly: fragments of one stream arrive.
use crate::show::Sheet;
use data_fields::ChunkPayloadData;
use print::Quoted;
use reassembly_queue::{BYTES, ReassemblyQueue, WORDS};
use refusal::Refusal;
use std::io;
use std::io::{Read, Write};

// The fields of a fragment of stream 0: ordered, or unordered with SSN 0.
pub fn ordered(b: bool, e: bool, tsn: u32, ssn: u16) -> ChunkPayloadData {
    ChunkPayloadData {
        unordered: false,
        beginning_fragment: b,
        ending_fragment: e,
        immediate_sack: false,
        tsn,
        stream_identifier: 0,
        stream_sequence_number: ssn,
        payload_type: 51,
    }
}

pub fn unordered(b: bool, e: bool, tsn: u32) -> ChunkPayloadData {
    let mut fields = ordered(b, e, tsn, 0);
    fields.unordered = true;
    fields
}

// A queue, with the table and the pool that are lent to it.
#[derive(Clone, Copy)]
pub struct Stream {
    queue: ReassemblyQueue,
    table: [u32; WORDS],
    pool: [u8; BYTES],
}

impl Stream {
    // Of messages of ten bytes at most.
    pub fn new() -> Stream {
        Stream {
            queue: ReassemblyQueue::new(0, 10),
            table: [0; WORDS],
            pool: [0; BYTES],
        }
    }

    pub fn push(&mut self, fields: ChunkPayloadData, user_data: &[u8]) -> Result<bool, Refusal> {
        self.queue
            .push(&mut self.table, &mut self.pool, fields, user_data)
    }

    // Pushes a fragment, and shows the answer.
    fn arrives<R: Read, W: Write>(
        &mut self,
        sheet: &mut Sheet<R, W>,
        fields: ChunkPayloadData,
        user_data: &[u8],
    ) -> io::Result<()> {
        match self.push(fields, user_data) {
            Ok(complete) => sheet.fill(complete),
            Err(reason) => sheet.refused(reason),
        }
    }

    // Takes a message, and shows it with the number of fragments that went with it.
    fn take<R: Read, W: Write>(&mut self, sheet: &mut Sheet<R, W>) -> io::Result<()> {
        let mut buffer = [0u8; 16];
        let held = self.queue.counts.ordered;
        match self
            .queue
            .read(&mut self.table, &mut self.pool, &mut buffer)
        {
            Ok(Some(message)) => {
                sheet.fill(held)?;
                sheet.fill(Quoted(&buffer[..message.size.min(16)]))
            }
            Ok(None) => sheet.fill("none"),
            Err(reason) => sheet.refused(reason),
        }
    }

    // How many bytes are held.
    pub fn bytes(&self) -> Result<usize, Refusal> {
        self.queue.get_num_bytes(&self.table, &self.pool)
    }
}

pub fn p9<R: Read, W: Write>(sheet: &mut Sheet<R, W>) -> io::Result<()> {
    let mut stream = Stream::new();
    let _ = stream.push(unordered(true, false, 1), b"123456");
    stream.arrives(sheet, unordered(false, true, 2), b"12345")?;
    stream.arrives(sheet, unordered(false, true, 2), b"1234")
}

pub fn p10<R: Read, W: Write>(sheet: &mut Sheet<R, W>) -> io::Result<()> {
    let mut stream = Stream::new();
    stream.queue.counts.next_ssn = 5;
    stream.arrives(sheet, ordered(true, true, 1, 4), b"12345678901")?;
    stream.arrives(sheet, ordered(true, true, 1, 4), b"1234567890")
}

// One SSN: TSN 1 with B, 3 with E, 2 with both.
pub fn p11<R: Read, W: Write>(sheet: &mut Sheet<R, W>) -> io::Result<()> {
    let mut stream = Stream::new();
    stream.arrives(sheet, ordered(true, false, 1, 0), b"a")?;
    stream.arrives(sheet, ordered(false, true, 3, 0), b"c")?;
    stream.arrives(sheet, ordered(true, true, 2, 0), b"b")?;
    stream.take(sheet)?;
    stream.take(sheet)
}
