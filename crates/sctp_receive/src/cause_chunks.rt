// ERROR and ABORT, RFC 4960 sections 3.3.10 and 3.3.7: their causes, and those of the chunks that causes hold. Each list is lent with its own length.
ghost use Rattle.std.specs.Prelude.{◌≡◌};
ghost use Rattle.cause_parts.specs.Lists.{lists};
ghost use Rattle.cause_report.specs.Report.{report, reported};
ghost use Rattle.sctp_receive_result.specs.Result.{told};

// The causes of the ERROR chunk that the lent bytes begin with, and how many they are; 1 2 3 16 10.
#[unsafe(no_mangle)]
pub extern "C" fn sctp_receive_error_unmarshal(
    raw: &[u8],
    codes: &mut [u16],
    depths: &mut [u16],
    starts: &mut [u16],
    sizes: &mut [u16],
    n: &mut usize,
) -> i32
    ensures { report (told result n.new) (lists codes.new depths.new starts.new sizes.new) ≡ reported 9 raw.now (lists codes.old depths.old starts.old sizes.old) }
{
    sctp_receive_causes::error_unmarshal(raw, codes, depths, starts, sizes, n)
}

// The causes of the ABORT chunk that the lent bytes begin with, and how many they are; 1 2 3 16 10.
#[unsafe(no_mangle)]
pub extern "C" fn sctp_receive_abort_unmarshal(
    raw: &[u8],
    codes: &mut [u16],
    depths: &mut [u16],
    starts: &mut [u16],
    sizes: &mut [u16],
    n: &mut usize,
) -> i32
    ensures { report (told result n.new) (lists codes.new depths.new starts.new sizes.new) ≡ reported 6 raw.now (lists codes.old depths.old starts.old sizes.old) }
{
    sctp_receive_causes::abort_unmarshal(raw, codes, depths, starts, sizes, n)
}
