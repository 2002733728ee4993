// One measure of the text: its positions are looked at once, then sounded, each for its share of N.
ghost use Rattle.std.specs.Prelude.{◌≡◌, ◌+◌, ◌-◌, ◌<◌, ◌≤◌, true, length};
ghost use Rattle.player.specs.Signs.{part_of, positions_of, sounding_of, chords_of};
ghost use Rattle.player.specs.Bars.{beats_of, Counted};
ghost use Rattle.player.specs.Page.{Ink, Fine, SameTables, shown, inked, measure_of};
ghost use Rattle.player.specs.Walks.{finish, measure_from, end_of};

use super::bars::{Bar, write_bar};
use super::heard::Sound;
use super::leaves::{chord_after, share_of, sounds, voice};
use super::pens::{Page, Pen, close, lasting, resting};
use score::Stretch;
use tokens::{CHORDS, REMOVER, is_position, kind};

// Where a walk may read: in which row of words, in which N, up to which place, and how many levels of loops and references deep.
#[derive(Clone, Copy)]
pub struct Scope<'w> {
    pub words: &'w [u32],
    pub n: usize,
    pub to: usize,
    pub depth: usize,
}

// Where a walk has come: the place and the last chord.
#[derive(Clone, Copy)]
pub struct Walk {
    pub at: usize,
    pub last: Sound,
}

// How many positions stand in front, how many of them sound, and the last chord behind them.
#[derive(Clone, Copy)]
pub struct Seen {
    pub count: usize,
    pub sounding: usize,
    pub last: Sound,
}

pub fn look(text: &[u32], last: Sound) -> Seen
    ensures count { result.count ≡ length (positions_of text.now) }
    ensures sounding { result.sounding ≡ sounding_of (positions_of text.now) }
    ensures last { result.last.word ≡ chords_of last.word (positions_of text.now) }
{
    let mut seen = Seen {
        count: 0,
        sounding: 0,
        last,
    };
    for &w in text {
        let k = kind(w);
        if k < CHORDS {
            seen.sounding += 1;
            seen.last = Sound { word: w };
        } else if is_position(k) {
            seen.sounding += sounds(k);
        } else {
            return seen;
        }
        seen.count += 1;
    }
    seen
}

// One position; a remover has no beats.
#[tactic(auto, using(crate::proofs::LookLaws::part_ways))]
pub fn position(w: u32, share: usize, last: Sound, p: Pen, bs: &mut [u32]) -> Pen
    requires { Fine p }
    ensures { ◌≡◌ {A = Ink} (record { pen = result; bs = bs.new }) (inked (part_of share last.word w) (record { pen = p; bs = bs.old })) }
{
    if kind(w) == REMOVER {
        return p;
    }
    lasting(share, voice(last, w), p, bs)
}

// The positions of a measure, beat by beat.
pub fn positions(bar: Bar, p: Pen, bs: &mut [u32]) -> Pen
    requires { Fine p × Counted bar }
    ensures { ◌≡◌ {A = Ink} (record { pen = result; bs = bs.new }) (inked (beats_of bar.entry) (record { pen = p; bs = bs.old })) }
{
    let mut q = p;
    let mut last = bar.last;
    for &w in bar.positions {
        q = position(w, bar.share, last, q, bs);
        last = chord_after(last, w);
    }
    q
}

// Whether so many beats are all to be written, and the table has room for all of them or for none.
fn is_whole(p: Pen, beats: usize, room: usize) -> bool
    ensures { result ≡ true → (p.skip ≤ 0) × (beats ≤ p.left) × (p.b < room → p.b + beats ≤ room) }
{
    p.skip == 0 && beats <= p.left && (room <= p.b || beats <= room - p.b)
}

// The pen behind so many beats that are written.
fn advanced(p: Pen, beats: usize) -> Pen
    requires { Fine p × (beats ≤ p.left) }
    ensures { result ≡ record { base = p.base; todo = p.todo; skip = p.skip; left = p.left - beats; m = p.m; b = p.b + beats } }
{
    Pen {
        left: p.left - beats,
        b: p.b + beats,
        ..p
    }
}

// The same positions; where all their beats are written, nothing is asked of each, and where the table is full, they cost nothing.
pub fn played(bar: Bar, p: Pen, bs: &mut [u32]) -> Pen
    requires { Fine p × Counted bar }
    ensures { ◌≡◌ {A = Ink} (record { pen = result; bs = bs.new }) (inked (beats_of bar.entry) (record { pen = p; bs = bs.old })) }
{
    let beats = bar.share * bar.sounding;
    let room = bs.len();
    if !is_whole(p, beats, room) {
        return positions(bar, p, bs);
    }
    if p.b < room {
        write_bar(bar, p.b, bs);
    }
    advanced(p, beats)
}

// A measure fewer to be looked at, and so many beats to be passed over.
fn begun(p: Pen, skip: usize) -> Pen
    requires { 1 ≤ p.todo }
    ensures { result ≡ record { base = p.base; todo = p.todo - 1; skip = skip; left = p.left; m = p.m; b = p.b } }
{
    Pen {
        todo: p.todo - 1,
        skip,
        ..p
    }
}

// A measure, if one is still to be looked at. One that is passed over as a whole costs nothing for its beats.
pub fn sounded(bar: Bar, page: &mut Page)
    requires { Fine page.old.pen × Counted bar }
    ensures played { shown page.new ≡ measure_of (beats_of bar.entry) (shown page.old) }
    ensures tables { SameTables page.old page.new }
{
    let p = page.pen;
    if p.todo == 0 {
        return;
    }
    let beats = bar.share * bar.sounding;
    if beats <= p.skip {
        page.pen = resting(begun(p, p.skip - beats));
        return;
    }
    let q = played(bar, begun(p, p.skip), page.beats);
    page.pen = resting(close(p.b, q, page.measures));
}

// One measure of the text.
pub fn measure(s: Scope, from: Walk, page: &mut Page) -> Walk
    requires { Fine page.old.pen × (s.n ≤ 32) }
    ensures walk { end_of result page.new ≡ finish (measure_from s.entry from) (shown page.old) }
    ensures tables { SameTables page.old page.new }
{
    let text = Stretch {
        from: from.at,
        to: s.to,
    }
    .words(s.words);
    let seen = look(text, from.last);
    let bar = Bar {
        positions: &text[..seen.count],
        sounding: seen.sounding,
        share: share_of(s.n, seen.count),
        last: from.last,
    };
    sounded(bar, page);
    Walk {
        at: from.at + seen.count,
        last: seen.last,
    }
}
