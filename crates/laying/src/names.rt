// What a text of the row names: the number of a definition, what the text says then, and whether it plays nothing.
ghost use Rattle.std.specs.Prelude.{◌≡◌};
ghost use Rattle.laying.specs.Laying.{named_at};
ghost use Rattle.laying.specs.Scores.{is_empty_text};
ghost use Rattle.laying.specs.Rows.{outline_by};

use outlines::{Outline, outline_for, outline_of};
use score::{Stretch, word_at};
use tokens::{REFERENCE, kind, number};

// The number that a text names; 0 where it names none.
pub fn named_at(words: &[u32], text: Stretch) -> u32
    ensures { result ≡ named_at words.now text }
{
    let w = word_at(words, text.to, text.from);
    if kind(w) == REFERENCE { number(w) } else { 0 }
}

// What a text says that names the definition of that number, or none.
pub fn outline_by(words: &[u32], text: Stretch, named: u32) -> Outline
    ensures { result ≡ outline_by words.now text named }
{
    if named == 0 {
        return outline_of(words, text);
    }
    outline_for(words, named)
}

// Only a text that names an empty definition plays nothing.
pub fn is_empty(words: &[u32], text: Stretch) -> bool
    ensures { result ≡ is_empty_text words.now text }
{
    let named = named_at(words, text);
    if named == 0 {
        return false;
    }
    let o = outline_for(words, named);
    o.empty
}
