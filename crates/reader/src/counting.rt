// A chart without tables: its refusal, or how many words its tables would take. It stores nothing, so nothing can be too short.
ghost use Rattle.std.specs.Prelude.{◌+◌, ◌≤◌, length};
ghost use Rattle.tokens.specs.Kept.{Unmarked};
ghost use Rattle.reader.specs.Answers.{Counted};
ghost use Rattle.reader.specs.Room.{answered_by};

use super::answers::{Answer, answered};
use judging::{LONG_ROW, SHORT_CHART, SHORT_ROW, Totals, first_stages, judge};
use refusals::Refusal;

// Stages 1 to 7, of every text: what its tables would hold, or what is refused. `words` is the row that stage 2 keeps tokens in and that the chart is
// laid into.
pub fn count_in(text: &[u8], words: &mut [u32]) -> Result<Totals, Refusal>
    requires { (length text.now ≤ 65536 → length text.now + 16 ≤ length words.old) × Unmarked words.old }
    ensures { Counted text.now (answered_by result) }
{
    first_stages(text, words)?;
    let chart = judge(text, words)?;
    Ok(chart.totals)
}

// The same as numbers, with a row of its own: a small one is soon cleared.
fn count_with_row<const ROW: usize>(text: &[u8]) -> Answer
    requires { (length text.now ≤ 65536 → length text.now + 16 ≤ ROW) × (ROW ≤ 65552) }
    ensures { Counted text.now result }
{
    let mut words = [0u32; ROW];
    answered(count_in(text, &mut words))
}

// Every text of every length is answered: refusal 1 to 17 with its line, or the counts, whatever their size. Nearly all have at most 2,048 bytes.
pub fn count(text: &[u8]) -> Answer
    ensures { Counted text.now result }
{
    if text.len() <= SHORT_CHART {
        return count_with_row::<SHORT_ROW>(text);
    }
    count_with_row::<LONG_ROW>(text)
}
