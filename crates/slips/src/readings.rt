// A text read token by token: its first `%` before every chord, and its first measure that does not fit.
ghost use Rattle.std.specs.Prelude.{◌≡◌, ◌+◌, ◌≤◌, true, false, length, MatchOption};
ghost use Rattle.slips.specs.declared.readings.Stray.TheVariants.{Unheard};
ghost use Rattle.slips.specs.Strays.{hearing_sign, is_found, stray_place};
ghost use Rattle.slips.specs.Misfits.{no_measure, one_more, closing, beginning, fitting_sign};
ghost use Rattle.slips.specs.Readings.{ReadsLine, ReadsRun};

use super::signs::token_from;
use sections::Run;
use text::line_at;
use tokens::{AGAIN, CHORDS, LINE_END, is_position, kind};

// No line is longer.
const LINE_MOST: usize = 65536;

// What was heard first: nothing yet, a chord, or a `%` at a place.
#[derive(Clone, Copy)]
pub enum Stray {
    Unheard,
    Sounded,
    Found(usize),
}

impl Stray {
    // The place of the `%`.
    pub fn found(self) -> Option<usize>
        ensures { MatchOption result (is_found self ≡ false) (λ p. (is_found self ≡ true) × (p ≡ stray_place self)) }
    {
        match self {
            Stray::Found(from) => Some(from),
            _ => None,
        }
    }
}

// The measure at hand: how many positions it has so far, where the first begins and the last ends. It is kept once one does not fit.
#[derive(Clone, Copy)]
pub struct Misfit {
    pub positions: usize,
    pub from: usize,
    pub to: usize,
    pub found: bool,
}

// N; what was found so far; how many measures were closed, and how many before the stray `%`.
#[derive(Clone, Copy)]
pub struct Reading {
    pub time: usize,
    pub stray: Stray,
    pub misfit: Misfit,
    pub measures: usize,
    pub before: usize,
}

pub fn reading_in(time: usize) -> Reading
    ensures { (result.time ≡ time) × (result.stray ≡ Unheard) × (result.misfit ≡ no_measure) }
{
    Reading {
        time,
        stray: Stray::Unheard,
        misfit: NO_MEASURE,
        measures: 0,
        before: 0,
    }
}

// Between two measures.
const NO_MEASURE: Misfit = Misfit {
    positions: 0,
    from: 0,
    to: 0,
    found: false,
};

// One more token: the first chord or `%` settles it.
fn hear(x: Stray, sign: u32, from: usize) -> Stray
    ensures { result ≡ hearing_sign x sign from }
{
    let Stray::Unheard = x else {
        return x;
    };
    if sign < CHORDS {
        return Stray::Sounded;
    }
    if sign == AGAIN {
        return Stray::Found(from);
    }
    x
}

// A line has at most 65,536 bytes, and so many positions.
fn one_more(positions: usize) -> usize
    ensures { result ≡ one_more positions }
{
    if positions < LINE_MOST {
        positions + 1
    } else {
        positions
    }
}

// The measure is over, if one was begun.
fn close(x: Misfit, time: usize) -> Misfit
    ensures { result ≡ closing time x }
{
    if x.positions == 0 {
        return x;
    }
    if time % x.positions == 0 {
        return NO_MEASURE;
    }
    Misfit { found: true, ..x }
}

// One more position.
fn begun(x: Misfit, from: usize, to: usize) -> Misfit
    ensures { result ≡ beginning x from to }
{
    Misfit {
        positions: one_more(x.positions),
        from: if x.positions == 0 { from } else { x.from },
        to,
        found: false,
    }
}

// One more token.
fn fit(x: Misfit, time: usize, sign: u32, from: usize, to: usize) -> Misfit
    ensures { result ≡ fitting_sign time x sign from to }
{
    if x.found {
        return x;
    }
    if is_position(sign) {
        return begun(x, from, to);
    }
    close(x, time)
}

// How many measures are closed with one more token.
fn measures_with(x: Misfit, measures: usize, sign: u32) -> usize {
    if x.found || x.positions == 0 || is_position(sign) {
        return measures;
    }
    measures.saturating_add(1)
}

// How many were closed before the stray `%`.
fn before_stray(x: Stray, measures: usize, before: usize) -> usize {
    if x.found().is_some() {
        before
    } else {
        measures
    }
}

// One more token.
pub fn read_token(x: Reading, sign: u32, from: usize, to: usize) -> Reading
    ensures { (result.stray ≡ hearing_sign x.stray sign from) × (result.time ≡ x.time) × (result.misfit ≡ fitting_sign x.time x.misfit sign from to) }
{
    let stray = hear(x.stray, sign, from);
    let misfit = fit(x.misfit, x.time, sign, from, to);
    let measures = measures_with(x.misfit, x.measures, sign);
    Reading {
        time: x.time,
        stray,
        misfit,
        measures,
        before: before_stray(stray, measures, x.before),
    }
}

// With the measures of a text that was read before: nothing else is new in it.
pub fn with_measures(x: Reading, more: usize) -> Reading
    ensures { (result.stray ≡ x.stray) × (result.time ≡ x.time) × (result.misfit ≡ x.misfit) }
{
    let measures = if x.misfit.found {
        x.measures
    } else {
        x.measures.saturating_add(more)
    };
    Reading {
        measures,
        before: before_stray(x.stray, measures, x.before),
        ..x
    }
}

// A line without references, and its end.
pub fn read_plain_line(s: &[u8], x: Reading, from: usize, to: usize) -> Reading
    requires { (from ≤ to) × (to ≤ length s.now) × (to ≤ 65536) }
    ensures { ReadsLine s.now from to x result }
{
    let mut reading = x;
    let mut at = from;
    while let Some(t) = token_from(s, at, to) {
        reading = read_token(reading, kind(t.word), t.from, t.next);
        at = t.next;
    }
    read_token(reading, LINE_END, to, to)
}

// Lines without references.
pub fn read_plain(s: &[u8], x: Reading, run: Run) -> Reading
    requires { (run.number ≤ run.at + 1) × (run.at ≤ length s.now) × (length s.now ≤ 65536) }
    ensures { ReadsRun s.now run x result }
{
    let mut reading = x;
    let mut at = run.at;
    for i in 0..run.lines {
        if s.len() <= at {
            return reading;
        }
        let l = line_at(s, run.number + i, at);
        reading = read_plain_line(s, reading, l.start, l.stop);
        at = l.next;
    }
    reading
}
