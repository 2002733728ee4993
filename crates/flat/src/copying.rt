// The call: one refusal and nothing stored, or the whole copy.
ghost use Rattle.std.specs.Prelude.{◌≡◌, [], ◌+◌, ◌≤◌, length};
ghost use Rattle.songcode.specs.Answer.SongText.{text_faults};
ghost use Rattle.songcode.specs.Answer.Answer.{input_faults, blocks_of};
ghost use Rattle.laying.specs.Scores.{Begins};
ghost use Rattle.judging.specs.Charts.{Laid};
ghost use Rattle.flat.specs.Answers.{Flattened, copied_as};

use super::songs::put_copy;
use judging::{LONG_ROW, SHORT_CHART, SHORT_ROW, first_stages, judge};
use refusals::{Refusal, Why};
use score::Stretch;
use sections::Place;

// The copy does not fit, in 65,536 bytes or in the buffer.
const TOO_LONG: Refusal = Refusal {
    why: Why::CopyTooLong,
    line: 0,
};

// A song that nothing is wrong with: its copy is counted before the lent buffer is touched, and written where it has room; its length.
fn copy_chart(
    text: &[u8],
    first: Place,
    words: &[u32],
    rows: Stretch,
    copy: &mut [u8],
) -> Result<usize, Refusal>
    requires { (input_faults text.now ≡ []) × (text_faults (blocks_of text.now) ≡ []) × Begins text.now first × Laid text.now words.now rows }
    ensures { Flattened text.now copy.old (copied_as result) copy.new }
{
    let mut none = [0u8; 1];
    let length = put_copy(text, first, words, rows, &mut none);
    if 65536 < length {
        return Err(TOO_LONG);
    }
    if copy.len() < length {
        return Err(TOO_LONG);
    }
    put_copy(text, first, words, rows, copy);
    Ok(length)
}

// Every text that is not longer than the row; longer ones are refused by stage 1. `ROW` words are what its texts are laid into.
fn copy_by_row<const ROW: usize>(text: &[u8], copy: &mut [u8]) -> Result<usize, Refusal>
    requires { (length text.now ≤ 65536 → length text.now + 16 ≤ ROW) × (ROW ≤ 65552) }
    ensures { Flattened text.now copy.old (copied_as result) copy.new }
{
    let mut words = [0u32; ROW];
    first_stages(text, &mut words)?;
    let chart = judge(text, &mut words)?;
    copy_chart(text, chart.first, &words, chart.rows, copy)
}

// Every text of every length and every buffer is answered; a chart of at most 2,048 bytes, as nearly all are, by a small row, which is soon cleared.
pub fn flat_copy(text: &[u8], copy: &mut [u8]) -> Result<usize, Refusal>
    ensures { Flattened text.now copy.old (copied_as result) copy.new }
{
    if text.len() <= SHORT_CHART {
        return copy_by_row::<SHORT_ROW>(text, copy);
    }
    copy_by_row::<LONG_ROW>(text, copy)
}
