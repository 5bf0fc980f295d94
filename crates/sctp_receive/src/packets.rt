// Packets: the common header of RFC 4960 section 3.1 with the checksum of its Appendix B, and the chunks behind it. C keeps a packet and a place in it by itself.
ghost use Rattle.std.specs.Prelude.{◌≡◌};
ghost use Rattle.crc32c.specs.Crc.{crc32c};
ghost use Rattle.wire_model.specs.Refusal.{written};
ghost use Rattle.packet.specs.Layout.{common};
ghost use Rattle.packet.specs.Header.{CommonFront, common_read};
ghost use Rattle.packet_marshal.specs.Written.{packet_written};
ghost use Rattle.sctp_receive_result.specs.Result.{told};
ghost use Rattle.sctp_receive_packet_chunks.specs.Stops.{stop, stop_at};

// CRC32c of the lent bytes.
#[unsafe(no_mangle)]
pub extern "C" fn sctp_receive_crc32c(bytes: &[u8]) -> u32
    ensures { result ≡ crc32c bytes.now }
{
    crc32c::crc32c(bytes)
}

// Ports and verification tag of the packet, if its checksum is right; 13 and 14.
#[unsafe(no_mangle)]
pub extern "C" fn sctp_receive_packet_unmarshal(
    raw: &[u8],
    source_port: &mut u16,
    destination_port: &mut u16,
    verification_tag: &mut u32,
) -> i32
    ensures { (f : CommonFront raw.now) → told result (common source_port.new destination_port.new verification_tag.new) ≡ common_read raw.now f.fields }
{
    sctp_receive_packets::unmarshal(raw, source_port, destination_port, verification_tag)
}

// The chunk at a place of the packet, whose first is 12: where it ends and the place of what follows it; not found where the walk is over; 11 1 2.
#[unsafe(no_mangle)]
pub extern "C" fn sctp_receive_packet_chunk_at(
    packet: &[u8],
    at: usize,
    found: &mut bool,
    end: &mut usize,
    next: &mut usize,
) -> i32
    ensures { told result (stop found.new end.new next.new) ≡ stop_at packet.now at }
{
    sctp_receive_packet_chunks::chunk_at(packet, at, found, end, next)
}

// The packet of these fields and of chunks lent back to back without padding, written to the front of the lent buffer; n is its byte count; 1 2 10.
#[unsafe(no_mangle)]
pub extern "C" fn sctp_receive_packet_marshal_to(
    out: &mut [u8],
    source_port: u16,
    destination_port: u16,
    verification_tag: u32,
    chunks: &[u8],
    n: &mut usize,
) -> i32
    ensures { written (told result n.new) out.new ≡ packet_written (common source_port destination_port verification_tag) chunks.now out.old }
{
    sctp_receive_packet_written::marshal_to(
        out,
        source_port,
        destination_port,
        verification_tag,
        chunks,
        n,
    )
}
