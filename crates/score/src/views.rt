// A section of the row, as those see it who play and write it. Every function is safe on every content.
ghost use Rattle.std.specs.Prelude.{◌≡◌, ◌≤◌, ◌/◌, ◌%◌, eqb};
ghost use Rattle.score.specs.Views.{cut_in, cut_at, cuts_length, view_of};

use super::definitions::entry_at;
use super::stretches::Stretch;
use cuts::{Beats, Cut, Measures};

// The words about a section: how many words it takes 17, N 6, bpm 9; header's line less 1: 16, repeat 14, whether it is cut 1; the words of
// its lead-in 16 and tail 16; its lyric lines 16, its pattern's measures 16 if each has N beats.
pub const SECTION_HEADS: usize = 4;
// The words of its two cuts, where it has one.
pub const CUTS: usize = 2;
// The words of a lyric line.
pub const LYRIC: usize = 2;

// A section: where the next begins, N, bpm, the header's line, the repeats, how many measures its pattern has if each has N beats (else 0), the
// cuts, where its texts stand and its lyric lines.
#[derive(Clone, Copy)]
pub struct View {
    pub next: usize,
    pub meter: usize,
    pub tempo: usize,
    pub header: usize,
    pub repeat: usize,
    pub even: usize,
    pub front: Cut,
    pub back: Cut,
    pub lead: Stretch,
    pub pattern: Stretch,
    pub tail: Stretch,
    pub lyrics: Stretch,
}

// A cut: measures 14, beats 14.
#[tactic(auto, unfolding(crate::specs::Views::cut_in))]
fn cut_in(w: u32) -> Cut
    ensures { result ≡ cut_in w }
{
    let measures = (w / 262144) as usize;
    let beats = (w / 16 % 16384) as usize;
    Cut {
        measures: Measures(measures),
        beats: Beats(beats),
    }
}

// The cut at a place, where there are any.
#[tactic(auto, unfolding(crate::specs::Views::cut_at))]
fn cut_at(words: &[u32], cut: bool, at: usize) -> Cut
    ensures { result ≡ cut_at words.now cut at }
{
    cut_in(if cut { entry_at(words, at) } else { 0 })
}

#[tactic(auto, unfolding(crate::specs::Views::cuts_length))]
fn cuts_length(cut: bool) -> usize
    ensures { (result ≡ cuts_length cut) × (result ≤ 2) }
{
    if cut { CUTS } else { 0 }
}

fn is_cut(w: u32) -> bool
    ensures { result ≡ eqb (w / 2 % 2) 1 }
{
    w / 2 % 2 == 1
}

// The section at a place.
#[tactic(auto, unfolding(crate::specs::Views::view_of, crate::specs::Views::view_by))]
pub fn section_at(words: &[u32], at: usize) -> View
    requires { at ≤ 1000000 }
    ensures { result ≡ view_of words.now at }
{
    let a = entry_at(words, at);
    let b = entry_at(words, at + 1);
    let c = entry_at(words, at + 2);
    let d = entry_at(words, at + 3);
    let cut = is_cut(b);
    let first = at + SECTION_HEADS + cuts_length(cut);
    let next = at + (a / 32768) as usize;
    let last = next.saturating_sub(LYRIC * (d / 65536) as usize);
    let begun = first + (c / 65536) as usize;
    let ended = last.saturating_sub((c % 65536) as usize);
    View {
        next,
        meter: (a / 512 % 64) as usize,
        tempo: (a % 512) as usize,
        header: (b / 65536) as usize + 1,
        repeat: (b / 4 % 16384) as usize,
        even: (d % 65536) as usize,
        front: cut_at(words, cut, at + SECTION_HEADS),
        back: cut_at(words, cut, at + SECTION_HEADS + 1),
        lead: Stretch {
            from: first,
            to: begun,
        },
        pattern: Stretch {
            from: begun,
            to: ended,
        },
        tail: Stretch {
            from: ended,
            to: last,
        },
        lyrics: Stretch {
            from: last,
            to: next,
        },
    }
}
