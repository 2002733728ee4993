// A section played and counted, and what the song's tables will hold.
ghost use Rattle.std.specs.Prelude.{◌≡◌, ◌+◌, ◌≤◌};
ghost use Rattle.judging.specs.Sums.{TextsWithin, counts_of, has_lines, has_prompts, sum_differs, with_section, totals_of};

use super::lengths::arrangement;
use super::lyrics::Tally;
use laying::Texts;
use player::{Counts, count_section};
use sections::Modifiers;

// How many words the tables take.
#[derive(Clone, Copy)]
pub struct Totals {
    pub sections: usize,
    pub measures: usize,
    pub beats: usize,
    pub items: usize,
}

// What the sections so far hold: their words, their lyric lines, and whether every section has lyrics, all with counts, and a pattern
// that is not empty.
#[derive(Clone, Copy)]
pub struct Sums {
    pub sections: usize,
    pub measures: usize,
    pub beats: usize,
    pub lines: usize,
    pub all: bool,
}

// How many measures and beats a section plays.
pub fn counts_of(words: &[u32], n: usize, t: Texts, m: Modifiers) -> Counts
    requires { TextsWithin words.now n t m 0 }
    ensures { result ≡ counts_of words.now n t m }
{
    count_section(words, arrangement(n, t, m))
}

pub fn totals_of(x: Sums) -> Totals
    ensures { result ≡ totals_of x }
{
    Totals {
        sections: x.sections,
        measures: x.measures,
        beats: x.beats,
        items: if x.all { x.lines } else { 0 },
    }
}

// Whether a section has lyric lines and a pattern that is not empty.
fn has_lines(empty: bool, t: Tally) -> bool
    ensures { result ≡ has_lines empty t }
{
    !empty && t.lines != 0
}

// Whether, moreover, all its lines have counts.
pub fn has_prompts(empty: bool, t: Tally) -> bool
    ensures { result ≡ has_prompts empty t }
{
    has_lines(empty, t) && t.bare == 0
}

// "each such section with lyrics sums to its measures": whether this one does not.
pub fn sum_differs(empty: bool, t: Tally, measures: usize) -> bool
    ensures { result ≡ sum_differs empty t measures }
{
    has_lines(empty, t) && t.sum != measures
}

// With one more section: its measures and beats, its lyric lines, and whether it has items.
pub fn with_section(x: Sums, c: Counts, lines: usize, prompts: bool) -> Sums
    requires { (x.sections ≤ 65536) × (x.measures + c.measures ≤ 65536) × (x.beats + c.beats ≤ 2097152) × (x.lines + lines ≤ 4295032832) }
    ensures { result ≡ with_section x c lines prompts }
{
    Sums {
        sections: x.sections + 1,
        measures: x.measures + c.measures,
        beats: x.beats + c.beats,
        lines: x.lines + lines,
        all: x.all && prompts,
    }
}
