// The chunk header.
ghost use Rattle.std.specs.Prelude.{◌≡◌, length};
ghost use Rattle.chunk.specs.Layout.{header};
ghost use Rattle.chunk.specs.Header.{HeaderFront, header_read, header_checks};
ghost use Rattle.sctp_receive_result.specs.Result.{told};

use chunk::chunk_header;
use sctp_receive_result::refused;

// Type, flags and length of the chunk that the lent bytes begin with; 1 and 2.
#[unsafe(no_mangle)]
pub extern "C" fn sctp_receive_header_unmarshal(
    raw: &[u8],
    typ: &mut u8,
    flags: &mut u8,
    size: &mut u16,
) -> i32
    ensures { (f : HeaderFront raw.now) → told result (header typ.new flags.new size.new) ≡ header_read (header_checks (length raw.now) f.fields) f.fields }
{
    *typ = 0;
    *flags = 0;
    *size = 0;
    let answer = chunk_header::unmarshal(raw);
    match answer {
        Ok(h) => {
            *typ = h.typ;
            *flags = h.flags;
            *size = h.length;
            -1
        }
        Err(e) => refused(e),
    }
}
