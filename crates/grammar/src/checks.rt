// The check of a pattern text: where the reading stands, and one function for each place that says what a token leads to.
ghost use Rattle.std.specs.Prelude.{◌≡◌, get_or};
ghost use Rattle.grammar.specs.declared.checks.Place.TheVariants.{Fresh};
ghost use Rattle.grammar.specs.Checks.{first, spoiled, moved, referred, opened, closed, arrived, is_bad, check_step};
ghost use Rattle.grammar.specs.Places.{row, next_place};

use super::Kind;
use Place::{Alone, Bad, Ended, Fresh, Full, Joins, Removed, Sounds, Wants};
use tokens::LOOPS_DEEP;

// Fresh: nothing was read. Wants: an item is to come. Joins: so it is, behind a `:` that a line end may still join.
// Sounds: in a measure; Removed: in one with removers. Alone: behind a `$n` that is all there was. Full: behind a loop or a `$n`.
// Ended: behind an item and a line end. Bad: against the rules.
#[derive(Clone, Copy, PartialEq, Eq)]
pub enum Place {
    Fresh,
    Wants,
    Joins,
    Sounds,
    Removed,
    Alone,
    Full,
    Ended,
    Bad,
}

// A place, whether a `$n` was read, and how many loops are open. (Small fields together: a gap of seven bytes behind one is slow to copy.)
#[derive(Clone, Copy)]
pub struct Check {
    pub place: Place,
    pub named: bool,
    pub loops: usize,
}

// The check before the first token.
pub fn start() -> Check
    ensures { result ≡ first }
{
    Check {
        place: Fresh,
        loops: 0,
        named: false,
    }
}

// The check of a text against the rules, whatever follows.
fn spoil() -> Check
    ensures { result ≡ spoiled }
{
    Check {
        place: Bad,
        loops: 0,
        named: false,
    }
}

fn move_to(c: Check, place: Place) -> Check
    ensures { result ≡ moved c place }
{
    Check { place, ..c }
}

fn refer_to(c: Check, place: Place) -> Check
    ensures { result ≡ referred c place }
{
    Check {
        place,
        named: true,
        ..c
    }
}

fn open_loop(c: Check) -> Check
    ensures { result ≡ opened c }
{
    if LOOPS_DEEP <= c.loops {
        return spoil();
    }
    Check {
        place: Wants,
        loops: c.loops + 1,
        ..c
    }
}

fn close_loop(c: Check) -> Check
    ensures { result ≡ closed c }
{
    if c.loops == 0 {
        return spoil();
    }
    Check {
        place: Full,
        loops: c.loops - 1,
        ..c
    }
}

// Where a token of each kind leads to, from each place in the order in which the places are declared.
// A measure begins where an item is to come, and goes on with "one or more positions".
const BY_SOUND: [Place; 9] = [Sounds, Sounds, Sounds, Sounds, Bad, Bad, Bad, Sounds, Bad];

// Removers "stand only at the end" of a measure.
const BY_REMOVER: [Place; 9] = [Bad, Bad, Bad, Removed, Removed, Bad, Bad, Bad, Bad];

// A `$n` or a loop begins where an item is to come; at the very beginning a `$n` may be the whole text. Nothing may be added to either.
const BY_REFERENCE: [Place; 9] = [Alone, Full, Full, Bad, Bad, Bad, Bad, Full, Bad];

const BY_OPENS: [Place; 9] = [Wants, Wants, Wants, Bad, Bad, Bad, Bad, Wants, Bad];

// Behind an item stands a separator, or the end of the loop around it.
const BY_SEMICOLON: [Place; 9] = [Bad, Bad, Bad, Wants, Wants, Wants, Wants, Bad, Bad];

const BY_CLOSES: [Place; 9] = [Bad, Bad, Bad, Full, Full, Full, Full, Bad, Bad];

// A line end counts with a `:` in front of it, and with one behind it.
const BY_LINE_END: [Place; 9] = [Bad, Bad, Wants, Ended, Ended, Ended, Ended, Bad, Bad];

const BY_COLON: [Place; 9] = [Bad, Bad, Bad, Joins, Joins, Joins, Joins, Joins, Bad];

// Where such a token leads to from a place.
fn at_place(leads: [Place; 9], place: Place) -> Place
    ensures { result ≡ get_or leads (row place) Fresh }
{
    match place {
        Fresh => leads[0],
        Wants => leads[1],
        Joins => leads[2],
        Sounds => leads[3],
        Removed => leads[4],
        Alone => leads[5],
        Full => leads[6],
        Ended => leads[7],
        Bad => leads[8],
    }
}

// Against the rules.
pub fn is_bad(place: Place) -> bool
    ensures { result ≡ is_bad place }
{
    place == Bad
}

fn next_place(place: Place, kind: Kind) -> Place
    ensures { result ≡ next_place place kind }
{
    match kind {
        Kind::Sound => at_place(BY_SOUND, place),
        Kind::Remover => at_place(BY_REMOVER, place),
        Kind::Reference => at_place(BY_REFERENCE, place),
        Kind::Semicolon => at_place(BY_SEMICOLON, place),
        Kind::Colon => at_place(BY_COLON, place),
        Kind::LineEnd => at_place(BY_LINE_END, place),
        Kind::Opens => at_place(BY_OPENS, place),
        Kind::Closes => at_place(BY_CLOSES, place),
        Kind::Wrong => Bad,
    }
}

// The check at its new place, with the loops and the `$n` counted.
fn arrive(c: Check, place: Place, kind: Kind) -> Check
    ensures { result ≡ arrived c place kind }
{
    match kind {
        Kind::Opens => open_loop(c),
        Kind::Closes => close_loop(c),
        Kind::Reference => refer_to(c, place),
        _ => move_to(c, place),
    }
}

// The check behind one more token.
pub fn step_kind(c: Check, kind: Kind) -> Check
    ensures { result ≡ check_step c kind }
{
    let from = c.place;
    let place = next_place(from, kind);
    if is_bad(place) {
        return spoil();
    }
    arrive(c, place, kind)
}
