// What the C calls of ERROR and ABORT are made of. The count is 0 beside a refusal.
#![tactic(auto)]

ghost use Rattle.std.specs.Prelude.{◌≡◌};
ghost use Rattle.cause_parts.specs.Lists.{lists};
ghost use Rattle.cause_report.specs.Report.{report, reported};
ghost use Rattle.sctp_receive_result.specs.Result.{told};

// The causes of the ERROR chunk that the lent bytes begin with; 1 2 3 16 10.
pub fn error_unmarshal(
    raw: &[u8],
    codes: &mut [u16],
    depths: &mut [u16],
    starts: &mut [u16],
    sizes: &mut [u16],
    n: &mut usize,
) -> i32
    ensures { report (told result n.new) (lists codes.new depths.new starts.new sizes.new) ≡ reported 9 raw.now (lists codes.old depths.old starts.old sizes.old) }
{
    let answer = chunk_error::unmarshal(raw, codes, depths, starts, sizes);
    sctp_receive_result::counted(answer, n)
}

// The causes of the ABORT chunk that the lent bytes begin with; 1 2 3 16 10.
pub fn abort_unmarshal(
    raw: &[u8],
    codes: &mut [u16],
    depths: &mut [u16],
    starts: &mut [u16],
    sizes: &mut [u16],
    n: &mut usize,
) -> i32
    ensures { report (told result n.new) (lists codes.new depths.new starts.new sizes.new) ≡ reported 6 raw.now (lists codes.old depths.old starts.old sizes.old) }
{
    let answer = chunk_abort::unmarshal(raw, codes, depths, starts, sizes);
    sctp_receive_result::counted(answer, n)
}
