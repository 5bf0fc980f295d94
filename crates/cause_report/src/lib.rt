// The causes of an ERROR or ABORT chunk, counted first and then written to the front of the lent lists.
#![tactic(auto)]

ghost use Rattle.std.specs.Prelude.{◌≡◌, ◌≤◌, length, drop};
ghost use Rattle.cause_parts.specs.Causes.{causes};
ghost use Rattle.cause_parts.specs.Lists.{lists};
ghost use Rattle.refusal.specs.Told.{count_told};
ghost use Rattle.error_causes.specs.Counts.{counted};
ghost use Rattle.cause_report.specs.Report.{lacking, report, listed, reported};

use cause_notes::{CODES, DEPTHS, SIZES, STARTS};
use chunk::chunk_header;
use refusal::Refusal;

// How many causes a chunk has, or its first fault. Nothing is written: the dry pass.
fn count(raw: &[u8]) -> Result<usize, Refusal>
    requires in_bounds { 4 ≤ length raw.now }
    requires raw_len_bound { length raw.now ≤ 65535 }
    ensures { count_told result ≡ counted 0 (causes 0 4 (drop 4 raw.now)) }
{
    let mut list = [0u16; 0];
    error_causes::read_causes(raw, 4, 0, 0, CODES, &mut list)
}

// Whether a list has fewer than n places.
fn lacks(n: usize, codes: usize, depths: usize, starts: usize, sizes: usize) -> bool
    ensures { result ≡ lacking n codes depths starts sizes }
{
    if codes < n {
        return true;
    }
    if depths < n {
        return true;
    }
    if starts < n {
        return true;
    }
    sizes < n
}

// The causes of a whole chunk: written where every list has room for all of them and none is at fault, else nothing is changed.
fn list(
    raw: &[u8],
    codes: &mut [u16],
    depths: &mut [u16],
    starts: &mut [u16],
    sizes: &mut [u16],
) -> Result<usize, Refusal>
    requires in_bounds { 4 ≤ length raw.now }
    requires raw_len_bound { length raw.now ≤ 65535 }
    ensures { report (count_told result) (lists codes.new depths.new starts.new sizes.new) ≡ listed (causes 0 4 (drop 4 raw.now)) (lists codes.old depths.old starts.old sizes.old) }
{
    let n = count(raw)?;
    if lacks(n, codes.len(), depths.len(), starts.len(), sizes.len()) {
        return Err(Refusal::ShortOutput);
    }
    error_causes::read_causes(raw, 4, 0, 0, CODES, codes)?;
    error_causes::read_causes(raw, 4, 0, 0, DEPTHS, depths)?;
    error_causes::read_causes(raw, 4, 0, 0, STARTS, starts)?;
    error_causes::read_causes(raw, 4, 0, 0, SIZES, sizes)
}

// The causes of a chunk of this type, ERROR or ABORT.
pub fn unmarshal_as(
    raw: &[u8],
    kind: u8,
    codes: &mut [u16],
    depths: &mut [u16],
    starts: &mut [u16],
    sizes: &mut [u16],
) -> Result<usize, Refusal>
    ensures { report (count_told result) (lists codes.new depths.new starts.new sizes.new) ≡ reported kind raw.now (lists codes.old depths.old starts.old sizes.old) }
{
    let h = chunk_header::unmarshal_as(raw, kind, 4).map_err(|e| e.told(Refusal::BadLength))?;
    let end = h.length as usize;
    list(&raw[..end], codes, depths, starts, sizes)
}
