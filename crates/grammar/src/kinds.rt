// What a token is to the rules of pattern text, told by its word.
ghost use Rattle.std.specs.Prelude.{◌≡◌};
ghost use Rattle.grammar.specs.Kinds.{word_kind};

use tokens::{
    AGAIN, CHORDS, CLOSES, COLON, LINE_END, OPENS, REFERENCE, REMOVER, SEMICOLON, SILENCE, kind,
};

#[derive(Clone, Copy, PartialEq, Eq)]
pub enum Kind {
    Sound,
    Remover,
    Reference,
    Semicolon,
    Colon,
    LineEnd,
    Opens,
    Closes,
    Wrong,
}

// A word that is no token's counts as a wrong one.
pub fn kind_of(word: u32) -> Kind
    ensures { result ≡ word_kind word }
{
    let sign = kind(word);
    if sign < CHORDS {
        return Kind::Sound;
    }
    match sign {
        REFERENCE => Kind::Reference,
        CLOSES => Kind::Closes,
        OPENS => Kind::Opens,
        LINE_END => Kind::LineEnd,
        COLON => Kind::Colon,
        SEMICOLON => Kind::Semicolon,
        REMOVER => Kind::Remover,
        AGAIN | SILENCE => Kind::Sound,
        _ => Kind::Wrong,
    }
}
