// The counts of a section and the measures that it plays, for refusal 17.
ghost use Rattle.std.specs.Prelude.{◌≡◌, [], ◌+◌, ◌≤◌, length};
ghost use Rattle.songcode.specs.Answer.Meter.{meter_faults, length_faults};
ghost use Rattle.songcode.specs.Answer.Answer.{song_of};
ghost use Rattle.tokens.specs.Kept.{KeptFrom};
ghost use Rattle.laying.specs.Scores.{Ready, Begins};
ghost use Rattle.laying.specs.Rows.{SongKeys};
ghost use Rattle.explain.specs.Sums.{Playable, SumsAt};

use judging::section_counts;
use laying::{lay_section, lines_before, load, metadata_end};
use sections::{Keys, Place, keys_of};

// The sum of the counts; the measures played.
#[derive(Clone, Copy)]
pub struct Summed {
    pub sum: usize,
    pub measures: usize,
}

// Of no section.
const NOTHING: Summed = Summed {
    sum: 0,
    measures: 0,
};

// Both, of the section with this header: each is laid behind the last one.
fn sums_from(
    s: &[u8],
    mark: usize,
    first: Place,
    song: Keys,
    line: usize,
    words: &mut [u32],
) -> Summed
    requires row { Begins s.now first × Ready s.now words.old mark × (mark ≤ first.at) × KeptFrom s.now words.old (mark + 1) }
    requires song { SongKeys (song_of s.now) song × (meter_faults (song_of s.now) ≡ [])
        × (length_faults (song_of s.now) 0 (song_of s.now).sections ≡ []) }
    ensures { SumsAt s.now line result }
{
    let mut place = first;
    let mut at = mark + 1;
    while place.at < s.len() {
        let x = lay_section(s, place, song, at, words);
        if x.section.header == line {
            let counts = section_counts(s, words, at);
            return Summed {
                sum: counts.sum,
                measures: counts.measures,
            };
        }
        at = x.end;
        place = x.next;
    }
    NOTHING
}

// Both, with the row that the sections are laid into.
pub fn sums_at(s: &[u8], line: usize, words: &mut [u32]) -> Summed
    requires { Playable s.now × (length s.now + 16 ≤ length words.old) }
    ensures { SumsAt s.now line result }
{
    let end = metadata_end(s);
    let song = keys_of(s, lines_before(end));
    words.fill(0);
    match load(s, end, words) {
        Ok(loaded) => sums_from(s, loaded.mark, loaded.sections, song, line, words),
        Err(_) => NOTHING,
    }
}
