// The record of a chunk.
ghost use Rattle.std.specs.Prelude.{◌≡◌, ◌+◌, ◌*◌, ◌<◌};
ghost use Rattle.table.specs.Rows.{row};
ghost use Rattle.data_fields.specs.Fields.{data_flags, data_sent};

use data_fields::ChunkPayloadData;
use table::Row;

// With a data length of 24 bits.
pub fn row_of(chunk: ChunkPayloadData, size: usize) -> Row
    requires { size < 16777216 }
    ensures { result ≡ row (data_flags chunk * 16777216 + size) (data_sent chunk).tsn ((data_sent chunk).stream * 65536 + (data_sent chunk).ssn) (data_sent chunk).identifier }
{
    let flags = data_fields::flags_of(chunk);
    Row {
        head: (flags as u32) * 16777216 + size as u32,
        tsn: chunk.tsn,
        id: (chunk.stream_identifier as u32) * 65536 + chunk.stream_sequence_number as u32,
        ppi: chunk.payload_type,
    }
}
