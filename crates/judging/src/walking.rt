// Stages 3 to 7 in one walk over the sections: each is opened once.
ghost use Rattle.std.specs.Prelude.{◌≡◌, [], ◌+◌, ◌≤◌, length, MatchResult};
ghost use Rattle.songcode.specs.Answer.References.{definitions_references};
ghost use Rattle.songcode.specs.Answer.Answer.{song_of};
ghost use Rattle.tokens.specs.Kept.{KeptFrom};
ghost use Rattle.laying.specs.Scores.{Begins, Ready};
ghost use Rattle.laying.specs.Rows.{SongKeys};
ghost use Rattle.judging.specs.Charts.{LaidOut, RefusedLater};
ghost use Rattle.judging.specs.Walking.{nothing_metered, nothing_sung, Ends};

use super::lyrics::Taken;
use super::measures::{Metered, metered_refusal, with_measures};
use super::references::name_fault;
use super::singing::{Sung, lyric_refusal, sing};
use super::sums::{Sums, Totals, totals_of};
use laying::lay_section;
use refusals::{NO_COMPLAINT, Refusal};
use score::Stretch;
use sections::{Keys, Place};

fn nothing_metered() -> Metered
    ensures { result ≡ nothing_metered }
{
    Metered {
        meters: NO_COMPLAINT,
        lengths: Ok(0),
    }
}

fn nothing_sung() -> Sung
    ensures { result ≡ nothing_sung }
{
    Sung {
        taken: Taken {
            counted: false,
            bare: 0,
        },
        off: 0,
        sums: Sums {
            sections: 0,
            measures: 0,
            beats: 0,
            lines: 0,
            all: true,
        },
    }
}

// Behind the last section: what the tables take, or the first of stages 4 to 7 that refuses.
fn outcome_of(x: Metered, y: Sung) -> Result<Totals, Refusal>
    ensures { Ends x y result }
{
    match metered_refusal(&x).or(lyric_refusal(y)) {
        Some(refusal) => Err(refusal),
        None => Ok(totals_of(y.sums)),
    }
}

// What the tables take, and where the sections stand in the row.
#[derive(Clone, Copy)]
pub struct Outcome {
    pub totals: Totals,
    pub rows: Stretch,
}

// Each section is laid behind the last one. What stage 3 refuses is given at once; sections are counted only while stages 4 and 5 refuse nothing.
pub fn walk(
    s: &[u8],
    song: Keys,
    mark: usize,
    first: Place,
    words: &mut [u32],
) -> Result<Outcome, Refusal>
    requires place { Begins s.now first × Ready s.now words.old mark × (mark ≤ first.at) × KeptFrom s.now words.old (mark + 1) }
    requires song { SongKeys (song_of s.now) song × (definitions_references [] (song_of s.now).definitions ≡ []) }
    ensures judged { MatchResult result (LaidOut s.now words.new) (RefusedLater s.now) }
    ensures length { length words.new ≡ length words.old }
{
    let mut place = first;
    let from = mark + 1;
    let mut at = from;
    let mut metered = nothing_metered();
    let mut sung = nothing_sung();
    while place.at < s.len() {
        let x = lay_section(s, place, song, at, words);
        if let Some(refusal) = name_fault(words, x.named, x.section.header) {
            return Err(refusal);
        }
        metered = with_measures(words, x.meter, x, metered);
        if metered_refusal(&metered).is_none() {
            sung = sing(words, x.meter, x, sung);
        }
        at = x.end;
        place = x.next;
    }
    let totals = outcome_of(metered, sung)?;
    Ok(Outcome {
        totals,
        rows: Stretch { from, to: at },
    })
}
