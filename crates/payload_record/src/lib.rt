// A chunk's record, and a record's chunk.
#![tactic(auto)]

ghost use Rattle.std.specs.Prelude.{◌≡◌};
ghost use Rattle.payload_model.specs.Queue.{row_of, chunk_of};
ghost use Rattle.payload_model.specs.Answers.{queued_found};

use data_fields::ChunkPayloadData;
use payload_model::Queued;
use table::Row;

// The record of a chunk.
pub fn row_of(chunk: ChunkPayloadData, size: u16) -> Row
    ensures { result ≡ row_of chunk size }
{
    let flags = data_fields::flags_of(chunk);
    Row {
        head: (flags as u32) * 16777216 + size as u32,
        tsn: chunk.tsn,
        id: (chunk.stream_identifier as u32) * 65536 + chunk.stream_sequence_number as u32,
        ppi: chunk.payload_type,
    }
}

// The chunk of a record.
pub fn chunk_of(row: Row) -> Queued
    ensures { queued_found result ≡ chunk_of row }
{
    let flags = row.head / 16777216;
    let chunk = ChunkPayloadData {
        unordered: flags / 4 % 2 == 1,
        beginning_fragment: flags / 2 % 2 == 1,
        ending_fragment: flags / 1 % 2 == 1,
        immediate_sack: flags / 8 % 2 == 1,
        tsn: row.tsn,
        stream_identifier: (row.id / 65536) as u16,
        stream_sequence_number: (row.id % 65536) as u16,
        payload_type: row.ppi,
    };
    Queued {
        chunk,
        size: (row.head % 65536) as u16,
    }
}
