// Stages 6 and 7 from section to section, where the stages before refuse nothing: lyric lines, measures and beats summed up.
ghost use Rattle.std.specs.Prelude.{◌≡◌};
ghost use Rattle.judging.specs.Lyrics.{tally_in};
ghost use Rattle.judging.specs.Sums.{counts_of};
ghost use Rattle.judging.specs.Singing.{off_with, sung_with, Addable, Singable, off_fault, lyric_refusal};

use super::lyrics::{Taken, Tally, count_fault, taken_with, tally_lyrics};
use super::sums::{Sums, counts_of, has_prompts, sum_differs, with_section};
use laying::Opened;
use player::Counts;
use refusals::{Refusal, Why};

// Of the sections so far: the lyric lines taken, the header of the first whose counts do not sum to its measures, 0 if there is none,
// and what they hold.
#[derive(Clone, Copy)]
pub struct Sung {
    pub taken: Taken,
    pub off: usize,
    pub sums: Sums,
}

fn off_with(off: usize, differs: bool, header: usize) -> usize
    ensures { result ≡ off_with off differs header }
{
    if off != 0 {
        return off;
    }
    if differs { header } else { 0 }
}

// With one more section: its lyric lines, and what it plays.
fn sung_with(empty: bool, header: usize, t: Tally, c: Counts, y: Sung) -> Sung
    requires { Addable y.sums c t }
    ensures { result ≡ sung_with empty header t c y }
{
    let taken = taken_with(empty, y.taken, t);
    let off = off_with(y.off, sum_differs(empty, t, c.measures), header);
    let sums = with_section(y.sums, c, t.lines, has_prompts(empty, t));
    Sung { taken, off, sums }
}

// The section that is opened, played in n and counted.
pub fn sing(words: &[u32], n: usize, x: Opened, y: Sung) -> Sung
    requires { Singable words.now n x y }
    ensures { result ≡ sung_with x.texts.pattern.outline.empty x.section.header
        (tally_in words.now x.lyrics) (counts_of words.now n x.texts x.section.modifiers) y }
{
    let modifiers = x.section.modifiers;
    let t = tally_lyrics(words, x.lyrics);
    let c = counts_of(words, n, x.texts, modifiers);
    sung_with(x.texts.pattern.outline.empty, x.section.header, t, c, y)
}

// What stage 7 refuses, where the lines have counts.
fn off_fault(counted: bool, off: usize) -> Option<Refusal>
    ensures { result ≡ off_fault counted off }
{
    if counted && off != 0 {
        return Some(Refusal {
            why: Why::CountSum,
            line: off,
        });
    }
    None
}

// What is refused of all sections: whether their lines are counted is known only now.
pub fn lyric_refusal(y: Sung) -> Option<Refusal>
    ensures { result ≡ lyric_refusal y }
{
    count_fault(y.taken).or(off_fault(y.taken.counted, y.off))
}
