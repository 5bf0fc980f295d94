// Eight streams in one pool, run: what one stream may hold, what each of the others is sure of then, and what comes free. The calls are those that
// `reassembly_streams` hands on.
#![tactic(auto)]

ghost use Rattle.std.specs.Prelude.{◌≤◌};

use data_fields::ChunkPayloadData;
use print::Quoted;
use reassembly_state::{BYTES, WORDS};
use refusal::Refusal;
use std::io;
use std::io::{BufWriter, Write};
use streams_model::Streams;

fn main(rt: HostRuntime) -> io::Result<()> {
    let mut writer = BufWriter::new(rt.alloc(), rt.stdout())?;
    let mut held = Held {
        streams: Streams::new(1000),
        table: [0; WORDS],
        pool: [0; BYTES],
    };
    held.filled(&mut writer)?;
    held.freed(&mut writer)?;
    held.message(&mut writer, 0)?;
    held.message(&mut writer, 7)?;
    held.totals(&mut writer)?;
    writer.flush()
}

// A chunk of a stream, the first or the last of its message or neither.
fn chunk(stream: u16, tsn: u32, unordered: bool, first: bool, last: bool) -> ChunkPayloadData {
    ChunkPayloadData {
        unordered,
        beginning_fragment: first,
        ending_fragment: last,
        immediate_sack: false,
        tsn,
        stream_identifier: stream,
        stream_sequence_number: 0,
        payload_type: 51,
    }
}

// An unordered fragment of one byte, the first of its message.
fn loose(stream: u16, tsn: u32) -> ChunkPayloadData {
    chunk(stream, tsn, true, true, false)
}

// The streams, and what is lent to each call.
#[derive(Drop)]
struct Held {
    streams: Streams,
    table: [u32; WORDS],
    pool: [u8; BYTES],
}

impl Held {
    // One stream takes all that is common, two more what is their own; there is no ninth.
    fn filled<W: Write>(&mut self, writer: &mut W) -> io::Result<()> {
        self.fill(writer, 3, 300000, 400)?;
        self.fill(writer, 0, 0, 16)?;
        self.fill(writer, 7, 700000, 16)?;
        self.fill(writer, 8, 0, 0)
    }

    // An unordered skip on the first of them, how many bytes it holds then, and what another may hold now.
    fn freed<W: Write>(&mut self, writer: &mut W) -> io::Result<()> {
        let _ = streams_forward_unordered::forward_tsn_for_unordered(
            &mut self.streams,
            &mut self.table,
            &mut self.pool,
            3,
            300199,
        );
        write!(writer, "Stream 3 skips and holds ")?;
        self.bytes(writer, 3)?;
        writeln!(writer)?;
        self.fill(writer, 7, 700000, 84)
    }

    // What these two hold in the end.
    fn totals<W: Write>(&self, writer: &mut W) -> io::Result<()> {
        self.bytes(writer, 3)?;
        write!(writer, " of stream 3, ")?;
        self.bytes(writer, 7)?;
        writeln!(writer, " of stream 7.")
    }

    // So many fragments for a stream, with a TSN between each two, and then one more, whose answer is told.
    fn fill<W: Write>(&mut self, writer: &mut W, stream: u16, base: u32, n: u32) -> io::Result<()>
        requires base_bound { base ≤ 700000 }
        requires n_bound { n ≤ 1000 }
    {
        for i in 0..n {
            let _ = self.pushed(loose(stream, base + i * 2), b"x");
        }
        write!(writer, "Stream {stream} holds ")?;
        self.bytes(writer, stream)?;
        write!(writer, ", one more: ")?;
        self.push(writer, loose(stream, base + 90000), b"x")
    }

    // Pushes a chunk to its stream.
    fn pushed(&mut self, c: ChunkPayloadData, user_data: &[u8]) -> Result<bool, Refusal> {
        streams_push::push(
            &mut self.streams,
            &mut self.table,
            &mut self.pool,
            c.stream_identifier,
            c,
            user_data,
        )
    }

    // The same, and tells the answer.
    fn push<W: Write>(
        &mut self,
        writer: &mut W,
        c: ChunkPayloadData,
        user_data: &[u8],
    ) -> io::Result<()> {
        match self.pushed(c, user_data) {
            Ok(whole) => writeln!(writer, "complete: {}", print::yes_or_no(whole)),
            Err(e) => writeln!(writer, "refusal {}", e.number()),
        }
    }

    // An ordered message of two chunks, the last first, and what comes of it.
    fn message<W: Write>(&mut self, writer: &mut W, stream: u16) -> io::Result<()> {
        write!(writer, "Stream {stream}: ")?;
        self.push(writer, chunk(stream, 7, false, false, true), b"lo")?;
        self.push(writer, chunk(stream, 6, false, true, false), b"hel")?;
        self.read(writer, stream)
    }

    // The next message of a stream.
    fn read<W: Write>(&mut self, writer: &mut W, stream: u16) -> io::Result<()> {
        let mut buffer = [0u8; 8];
        match streams_take::read(
            &mut self.streams,
            &mut self.table,
            &mut self.pool,
            stream,
            &mut buffer,
        ) {
            Ok(Some(m)) => writeln!(writer, "{}", Quoted(&buffer[..m.size.min(8)])),
            Ok(None) => writeln!(writer, "none"),
            Err(e) => writeln!(writer, "{}", e.number()),
        }
    }

    // How many bytes a stream holds.
    fn bytes<W: Write>(&self, writer: &mut W, stream: u16) -> io::Result<()> {
        match streams_look::get_num_bytes(self.streams, &self.table, &self.pool, stream) {
            Ok(n) => write!(writer, "{n}"),
            Err(e) => write!(writer, "refusal {}", e.number()),
        }
    }
}
