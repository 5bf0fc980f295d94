// ABORT, RFC 4960 section 3.3.7: why a peer closes the association.
#![tactic(auto)]

ghost use Rattle.std.specs.Prelude.{◌≡◌};
ghost use Rattle.cause_parts.specs.Lists.{lists};
ghost use Rattle.refusal.specs.Told.{count_told};
ghost use Rattle.cause_report.specs.Report.{report, reported};

use refusal::Refusal;

// How many causes the chunk has, those of enclosed chunks among them; their codes, depths, and where their values stand, in the lent lists.
pub fn unmarshal(
    raw: &[u8],
    codes: &mut [u16],
    depths: &mut [u16],
    starts: &mut [u16],
    sizes: &mut [u16],
) -> Result<usize, Refusal>
    ensures { report (count_told result) (lists codes.new depths.new starts.new sizes.new) ≡ reported 6 raw.now (lists codes.old depths.old starts.old sizes.old) }
{
    cause_report::unmarshal_as(raw, cause_parts::ABORT, codes, depths, starts, sizes)
}
