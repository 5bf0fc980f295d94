// The receiver: what is acknowledged and what is reassembled, side by side.
use crate::sack::{BYTES, ENTRIES, Sack, WINDOW};
use crate::segment;
use data_fields::ChunkPayloadData;
use payload_queue::{PayloadQueue, TSNS};
use print::Quoted;
use reassembly_queue::ReassemblyQueue;
use refusal::Refusal;
use std::io;
use std::io::Write;

// Both queues with what is lent to them, and the cumulative TSN.
#[derive(Clone, Copy)]
pub struct Receiver {
    tsns: PayloadQueue,
    tsn_table: [u32; payload_queue::WORDS],
    fragments: ReassemblyQueue,
    table: [u32; reassembly_queue::WORDS],
    pool: [u8; reassembly_queue::BYTES],
    cumulative: u32,
}

impl Receiver {
    pub fn new() -> Receiver {
        Receiver {
            tsns: PayloadQueue::new(),
            tsn_table: [0; payload_queue::WORDS],
            fragments: ReassemblyQueue::new(segment::STREAM, segment::LARGEST),
            table: [0; reassembly_queue::WORDS],
            pool: [0; reassembly_queue::BYTES],
            cumulative: segment::FIRST - 1,
        }
    }

    // A segment's chunk arrives, and is answered with a SACK.
    pub fn arrives<W: Write>(&mut self, writer: &mut W, i: usize) -> io::Result<()> {
        let mut raw = [0u8; 64];
        let n = segment::wire(i, &mut raw);
        self.receive(writer, &raw[..n.min(64)])?;
        self.move_on();
        match self.acknowledge() {
            Ok(sack) => write!(writer, "{sack}"),
            Err(reason) => refused(writer, reason),
        }
    }

    // Its fields and its user data go to both queues.
    fn receive<W: Write>(&mut self, writer: &mut W, raw: &[u8]) -> io::Result<()> {
        match read(raw) {
            Ok((fields, user_data)) => {
                let tsn = fields.tsn;
                writeln!(writer, "TSN {tsn} arrives with {}", Quoted(user_data))?;
                self.store(writer, fields, user_data)
            }
            Err(reason) => refused(writer, reason),
        }
    }

    // What the TSN queue takes, reassembly takes too; a TSN that is held or old is only logged.
    fn store<W: Write>(
        &mut self,
        writer: &mut W,
        fields: ChunkPayloadData,
        user_data: &[u8],
    ) -> io::Result<()> {
        let size = u16::try_from(user_data.len()).unwrap_or(0);
        let cumulative = self.cumulative;
        match self
            .tsns
            .push(&mut self.tsn_table, fields, size, cumulative)
        {
            Ok(true) => self.reassemble(writer, fields, user_data),
            Ok(false) => writeln!(writer, "  came before: logged as a duplicate"),
            Err(reason) => refused(writer, reason),
        }
    }

    fn reassemble<W: Write>(
        &mut self,
        writer: &mut W,
        fields: ChunkPayloadData,
        user_data: &[u8],
    ) -> io::Result<()> {
        let queue = &mut self.fragments;
        match queue.push(&mut self.table, &mut self.pool, fields, user_data) {
            Ok(true) => writeln!(writer, "  stored: the message is complete"),
            Ok(false) => writeln!(writer, "  stored"),
            Err(reason) => refused(writer, reason),
        }
    }

    // The cumulative TSN moves on over what is held right behind it.
    fn move_on(&mut self) {
        for _ in 0..TSNS {
            let next = self.cumulative.wrapping_add(1);
            let Ok(Some(_)) = self.tsns.pop(&mut self.tsn_table, next) else {
                break;
            };
            self.cumulative = next;
        }
    }

    // The blocks between what is held, and the SACK of them and of the log of duplicates, which goes out with it.
    fn acknowledge(&mut self) -> Result<Sack, Refusal> {
        let mut starts = [0u16; ENTRIES];
        let mut ends = [0u16; ENTRIES];
        let mut bytes = [0u8; BYTES];
        let log = self.tsns.pop_duplicates(&self.tsn_table)?;
        let cumulative = self.cumulative;
        let table = &self.tsn_table;
        let blocks = self
            .tsns
            .get_gap_ack_blocks(table, cumulative, &mut starts, &mut ends)?;
        let n = blocks.min(ENTRIES);
        let tsns = log.tsns.get(..log.count).unwrap_or(&[]);
        let (s, e) = (&starts[..n], &ends[..n]);
        let size = chunk_selective_ack::marshal_to(&mut bytes, cumulative, WINDOW, s, e, tsns)?;
        Ok(Sack {
            cumulative,
            blocks,
            starts,
            ends,
            size,
            bytes,
        })
    }

    // The image is taken, and shown as it came out of reassembly.
    pub fn takes<W: Write>(&mut self, writer: &mut W) -> io::Result<()> {
        let mut buffer = [0u8; 64];
        let queue = &mut self.fragments;
        match queue.read(&mut self.table, &mut self.pool, &mut buffer) {
            Ok(Some(message)) => {
                writeln!(writer, "The image, {} bytes:", message.size)?;
                writeln!(writer, "  {}", Quoted(&buffer[..message.size.min(64)]))?;
            }
            Ok(None) => writeln!(writer, "Nothing can be taken.")?,
            Err(reason) => refused(writer, reason)?,
        }
        match self.fragments.get_num_bytes(&self.table, &self.pool) {
            Ok(n) => writeln!(writer, "Bytes still held: {n}"),
            Err(reason) => refused(writer, reason),
        }
    }
}

// The fields and the user data of a DATA chunk.
fn read(raw: &[u8]) -> Result<(ChunkPayloadData, &[u8]), Refusal> {
    let fields = chunk_payload_data::unmarshal(raw)?;
    let user_data = chunk_payload_data::user_data(raw)?;
    Ok((fields, user_data))
}

fn refused<W: Write>(writer: &mut W, reason: Refusal) -> io::Result<()> {
    writeln!(writer, "  refused with {}", reason.number())
}
