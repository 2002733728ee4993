// What the check at the end of a text says of it.
ghost use Rattle.std.specs.Prelude.{◌≡◌};
ghost use Rattle.grammar.specs.Verdicts.{is_behind, is_alone, definition_fine, unnamed_fine, section_fine};

use super::{Check, Place};

// An item stands last: from `Sounds` to `Full`.
fn is_behind(place: Place) -> bool
    ensures { result ≡ is_behind place }
{
    matches!(
        place,
        Place::Sounds | Place::Removed | Place::Alone | Place::Full
    )
}

// "`$n` as its whole text": `Alone`.
pub fn is_alone(place: Place) -> bool
    ensures { result ≡ is_alone place }
{
    place == Place::Alone
}

// The text of a definition: items, and no loop left open.
pub fn definition_fine(c: Check) -> bool
    ensures { result ≡ definition_fine c }
{
    is_behind(c.place) && c.loops == 0
}

// Items without `$n`.
pub fn unnamed_fine(c: Check) -> bool
    ensures { result ≡ unnamed_fine c }
{
    definition_fine(c) && !c.named
}

// The text of a section: items without `$n`, or `$n` alone.
pub fn section_fine(c: Check) -> bool
    ensures { result ≡ section_fine c }
{
    definition_fine(c) && (is_alone(c.place) || !c.named)
}
