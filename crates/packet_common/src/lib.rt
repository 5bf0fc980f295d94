// The common header of a packet, RFC 4960 section 3.1, written without its checksum.
#![tactic(auto)]

ghost use Rattle.std.specs.Prelude.{◌≡◌, ◌≤◌, length};
ghost use Rattle.wire_model.specs.BigEndian.{over};
ghost use Rattle.packet.specs.Layout.{common, common_bytes};

// The common header with 0 in its checksum field, put at the front of what is lent.
pub fn put_common(out: &mut [u8], source_port: u16, destination_port: u16, verification_tag: u32)
    requires { 12 ≤ length out.old }
    ensures { out.new ≡ over out.old (common_bytes (common source_port destination_port verification_tag) 0) }
{
    wire_put::put_u16(out, source_port);
    wire_put::put_u16(&mut out[2..], destination_port);
    wire_put::put_u32(&mut out[4..], verification_tag);
    wire_put::put_u32(&mut out[8..], 0);
}
