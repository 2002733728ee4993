// The slip behind a refusal.
ghost use Rattle.std.specs.Prelude.{◌+◌, ◌≤◌, length};
ghost use Rattle.refusals.specs.Names.{number_of};
ghost use Rattle.slips.specs.Standing.{LineIn, Counted};
ghost use Rattle.slips.specs.Finds.{Finds};

use super::blocks::{head_slip, line_slip, order_slip};
use super::counts::{count_slip, cut_slip, header_name, sum_slip};
use super::keys::{key_slip, setting_slip};
use super::meters::meter_slip;
use super::patterns::pattern_slip;
use super::references::reference_slip;
use super::slip::{Slip, at_place, noted};
use super::spots::{Spot, spot_of};
use refusals::Why;
use text::{byte_at, good_bytes};

// The clauses of refusal 2.
const ZERO_BYTE: usize = 1;

const NO_CHARACTER: usize = 2;

// Refusal 2.
fn byte_slip(s: &[u8]) -> Slip {
    let at = good_bytes(s);
    let byte = usize::from(byte_at(s, at));
    let clause = if byte == 0 { ZERO_BYTE } else { NO_CHARACTER };
    noted(clause, at, at + 1, 0, byte)
}

// The slip of every refusal but 7, 12, 13, 16 and 17.
fn slip_on(s: &[u8], p: Spot, why: Why) -> Slip
    requires start_le_stop { LineIn s.now p.line × (length s.now ≤ 65536) }
    requires number_bound { (p.line.number ≤ p.line.start + 1) × (1 ≤ p.line.number) }
    requires le_number { Counted p.block × (p.block.at ≤ length s.now) }
{
    match why {
        Why::BadText => byte_slip(s),
        Why::BlockOrder => order_slip(s, p.line),
        Why::BadKey => key_slip(s, p),
        Why::BadSetting => setting_slip(s, p.line),
        Why::BadHead => head_slip(s, p.line),
        Why::BadLine => line_slip(s, p),
        Why::ReferenceUndefined | Why::ReferenceKind => reference_slip(s, p.block, why),
        Why::SongTooLong => header_name(1, s, p.line),
        Why::NothingLeft => cut_slip(s, p),
        _ => at_place(1, 0, 0),
    }
}

// The slip of a text that is refused for this on this line; the time is the N of the section that the line stands in.
fn slip_of(s: &[u8], why: Why, line: usize, time: usize) -> Slip
    requires { length s.now ≤ 65536 }
    ensures { Finds s.now (number_of why) line time result }
{
    let p = spot_of(s, line);
    match why {
        Why::BadPattern => pattern_slip(s, p),
        Why::CountMissing => count_slip(s, p.line),
        Why::CountSum => sum_slip(s, p),
        Why::Division => meter_slip(s, p.line, line, why, time),
        Why::NoChordBefore => meter_slip(s, p.line, line, why, time),
        _ => slip_on(s, p, why),
    }
}

// The same by the number of what it is refused for.
pub fn find_slip(s: &[u8], refusal: usize, line: usize, time: usize) -> Slip
    requires { length s.now ≤ 65536 }
    ensures { Finds s.now refusal line time result }
{
    match Why::try_from(refusal) {
        Ok(why) => slip_of(s, why, line, time),
        Err(_) => at_place(1, 0, 0),
    }
}
