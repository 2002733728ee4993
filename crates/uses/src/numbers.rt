// A caller that keeps complaints as numbers: the least of them goes first, "no section" behind them all.
ghost use Rattle.std.specs.Prelude.{◌≡◌, ◌<◌, ◌++◌, min};
ghost use Rattle.songcode.specs.Complaints.{complain_if};
ghost use Rattle.refusals.specs.Refusals.{told};
ghost use Rattle.refusals.specs.Ranks.{no_section, least, refusal_at};

use refusals::{NO_SECTION_RANK, Refusal, Why, complain_if, refusal_at};

// Of a line on which 12 and 13 may be complained of.
pub fn first_told(twelve: bool, thirteen: bool, line: usize) -> Option<Refusal>
    ensures { line < 131072
        → told result ≡ refusal_at (min (least (complain_if twelve 12 line ++ complain_if thirteen 13 line)) no_section) }
{
    let divided = usize::from(complain_if(twelve, Why::Division, line));
    let again = usize::from(complain_if(thirteen, Why::NoChordBefore, line));
    let last = usize::from(NO_SECTION_RANK);
    refusal_at(divided.min(again).min(last))
}
