// What the C call is made of that writes a packet.
#![tactic(auto)]

ghost use Rattle.std.specs.Prelude.{◌≡◌};
ghost use Rattle.wire_model.specs.Refusal.{written};
ghost use Rattle.packet.specs.Layout.{common};
ghost use Rattle.packet_marshal.specs.Written.{packet_written};
ghost use Rattle.sctp_receive_result.specs.Result.{told};

// The packet of these fields and of chunks lent back to back without padding, written to the front of the lent buffer; n is its byte count; 1 2 10.
pub fn marshal_to(
    out: &mut [u8],
    source_port: u16,
    destination_port: u16,
    verification_tag: u32,
    chunks: &[u8],
    n: &mut usize,
) -> i32
    ensures { written (told result n.new) out.new ≡ packet_written (common source_port destination_port verification_tag) chunks.now out.old }
{
    let answer = packet_marshal::marshal_to(
        out,
        source_port,
        destination_port,
        verification_tag,
        chunks,
    );
    sctp_receive_result::counted(answer, n)
}
