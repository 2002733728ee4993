// A chart judged by stages 3 to 7: what the writers of the tables need to know of it.
ghost use Rattle.std.specs.Prelude.{◌≡◌, []};
ghost use Rattle.songcode.specs.Answer.Answer.{input_faults, blocks_of};
ghost use Rattle.songcode.specs.Answer.SongText.{text_faults};
ghost use Rattle.tokens.specs.Kept.{KeptFrom};
ghost use Rattle.judging.specs.Charts.{Judges};

use super::sums::Totals;
use super::walking::walk;
use laying::{lay_keys, lines_before, load, metadata_end};
use refusals::Refusal;
use score::Stretch;
use sections::{Place, gather};

// Where its sections begin in the text, where they stand in the row, and what its tables will hold. The words of the keys stand behind the sections.
#[derive(Drop)]
pub struct Chart {
    pub first: Place,
    pub rows: Stretch,
    pub totals: Totals,
}

// The settings of the metadata are gathered once: for the song's time and bpm, and for the keys table.
pub fn judge(s: &[u8], words: &mut [u32]) -> Result<Chart, Refusal>
    requires { (input_faults s.now ≡ []) × (text_faults (blocks_of s.now) ≡ []) × KeptFrom s.now words.old 0 }
    ensures { Judges s.now words.new result }
{
    let end = metadata_end(s);
    let settings = gather(s, lines_before(end));
    let loaded = load(s, end, words)?;
    let outcome = walk(s, settings.keys(s), loaded.mark, loaded.sections, words)?;
    let at = outcome.rows.to;
    lay_keys(s, &settings, &mut words[at..]);
    Ok(Chart {
        first: loaded.sections,
        rows: outcome.rows,
        totals: outcome.totals,
    })
}
