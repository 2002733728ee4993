// Which clause of refusal 7 holds where a pattern text stops being right.
ghost use Rattle.std.specs.Prelude.{◌≡◌, true};
ghost use Rattle.slips.specs.Clauses.{number_of};
ghost use Rattle.slips.specs.Rules.{is_earlier};

use grammar::{Check, Place};
use text::byte_at;
use tokens::{CLOSES, COLON, OPENS, REFERENCE, REMOVER, SEMICOLON, WRONG, has_slip, longest_base};

// The clauses, by their numbers.
#[derive(Clone, Copy, PartialEq, Eq)]
pub enum Clause {
    NoChord = 1,
    ExtensionLong,
    ReferenceMalformed,
    SeparatorFirst,
    SeparatorDoubled,
    SeparatorLast,
    SeparatorLineEnd,
    SeparatorLineStart,
    RemoverFirst,
    RemoverInside,
    LoopEmpty,
    LoopCountMissing,
    LoopCountWrong,
    LoopInLoop,
    LoopOpen,
    LoopNotOpen,
    LoopLineEnd,
    NotParted,
    ReferenceNotHere,
    ColonNotHere,
    SideEmpty,
    ExtensionSign,
}

impl From<Clause> for usize {
    ghost from_gives = { λ clause number. number ≡ number_of clause };

    fn from(clause: Clause) -> usize {
        clause as usize
    }
}

// Whether an item is to come.
fn wants(place: Place) -> bool {
    matches!(
        place,
        Place::Fresh | Place::Wants | Place::Joins | Place::Ended
    )
}

// A word that is no token.
fn wrong_clause(w: &[u8]) -> Clause {
    match byte_at(w, 0) {
        b'$' => Clause::ReferenceMalformed,
        b']' if w.len() == 1 => Clause::LoopCountMissing,
        b']' => Clause::LoopCountWrong,
        _ if longest_base(w).length == 0 => Clause::NoChord,
        _ if has_slip(w) => Clause::ExtensionSign,
        _ => Clause::ExtensionLong,
    }
}

// A `;` or `:`; the sign of the token before it.
fn separator_clause(place: Place, last: u32) -> Clause {
    match place {
        _ if last == OPENS => Clause::SeparatorFirst,
        Place::Fresh => Clause::SeparatorFirst,
        Place::Ended => Clause::SeparatorLineStart,
        _ => Clause::SeparatorDoubled,
    }
}

// A `]` with its count.
fn closing_clause(place: Place, last: u32, loops: usize) -> Clause {
    match place {
        _ if loops == 0 => Clause::LoopNotOpen,
        _ if last == OPENS => Clause::LoopEmpty,
        Place::Ended => Clause::LoopLineEnd,
        _ => Clause::SeparatorLast,
    }
}

// A `[` or a remover: a clause of its own where an item is to come.
fn wanted_clause(place: Place, clause: Clause) -> Clause {
    if wants(place) {
        clause
    } else {
        Clause::NotParted
    }
}

// A reference, or a token that sounds: this may not stand behind removers.
fn sound_clause(place: Place, sign: u32) -> Clause {
    match place {
        Place::Removed if sign != REFERENCE => Clause::RemoverInside,
        _ => Clause::NotParted,
    }
}

// A token behind a text that was right so far.
pub fn token_clause(c: Check, last: u32, sign: u32, w: &[u8]) -> Clause {
    match sign {
        WRONG => wrong_clause(w),
        CLOSES => closing_clause(c.place, last, c.loops),
        OPENS => wanted_clause(c.place, Clause::LoopInLoop),
        COLON | SEMICOLON => separator_clause(c.place, last),
        REMOVER => wanted_clause(c.place, Clause::RemoverFirst),
        _ => sound_clause(c.place, sign),
    }
}

// A line end behind it.
pub fn line_end_clause(last: u32) -> Clause
    ensures { is_earlier (number_of result) ≡ true }
{
    if last == OPENS {
        Clause::LoopLineEnd
    } else {
        Clause::SeparatorLineEnd
    }
}

// The end of the text behind it.
pub fn end_clause(c: Check) -> Clause
    ensures { is_earlier (number_of result) ≡ true }
{
    match c.place {
        Place::Fresh => Clause::SideEmpty,
        place if wants(place) => Clause::SeparatorLast,
        _ => Clause::LoopOpen,
    }
}
