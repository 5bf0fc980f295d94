// What the C call is made of that reads a packet's common header. Out values are 0 beside a refusal.
#![tactic(auto)]

ghost use Rattle.std.specs.Prelude.{◌≡◌};
ghost use Rattle.packet.specs.Layout.{common};
ghost use Rattle.packet.specs.Header.{CommonFront, common_read};
ghost use Rattle.sctp_receive_result.specs.Result.{told, back};

use sctp_receive_result::refused;

// The common header of the packet, if its checksum is right; 13 and 14.
pub fn unmarshal(
    raw: &[u8],
    source_port: &mut u16,
    destination_port: &mut u16,
    verification_tag: &mut u32,
) -> i32
    ensures { (f : CommonFront raw.now) → told (back result) (common source_port.new destination_port.new verification_tag.new) ≡ common_read raw.now f.fields }
{
    match packet::unmarshal(raw) {
        Ok(h) => {
            *source_port = h.source_port;
            *destination_port = h.destination_port;
            *verification_tag = h.verification_tag;
            -1
        }
        Err(e) => {
            *source_port = 0;
            *destination_port = 0;
            *verification_tag = 0;
            refused(e)
        }
    }
}
