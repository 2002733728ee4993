// What a token word tells: its kind, which is a chord's base or a sign, and the number in the bits below. Every function is safe on every word.
ghost use Rattle.std.specs.Prelude.{◌≡◌, ◌<◌};
ghost use Rattle.tokens.specs.Signs.{kind_of, number_of, is_position, is_separator, is_stop};

// What a kind weighs in a word: 26 bits are below it.
pub const KIND: u32 = 67108864;

// Chords have the kinds below this one.
pub const CHORDS: u32 = 34;

// The kinds of the signs: of a word that is wrong, of `$n`, `]n`, `[`, a line end, `:`, `;`, `=`, `%` and `_`.
pub const WRONG: u32 = 54;

pub const REFERENCE: u32 = 55;

pub const CLOSES: u32 = 56;

pub const OPENS: u32 = 57;

pub const LINE_END: u32 = 58;

pub const COLON: u32 = 59;

pub const SEMICOLON: u32 = 60;

pub const REMOVER: u32 = 61;

pub const AGAIN: u32 = 62;

pub const SILENCE: u32 = 63;

// The words of the signs that have no number.
pub const WRONG_WORD: u32 = WRONG * KIND;

pub const OPENS_WORD: u32 = OPENS * KIND;

pub const LINE_END_WORD: u32 = LINE_END * KIND;

pub const COLON_WORD: u32 = COLON * KIND;

pub const SEMICOLON_WORD: u32 = SEMICOLON * KIND;

pub const REMOVER_WORD: u32 = REMOVER * KIND;

pub const AGAIN_WORD: u32 = AGAIN * KIND;

pub const SILENCE_WORD: u32 = SILENCE * KIND;

// "No loop in a loop": so many loops are open at once.
pub const LOOPS_DEEP: usize = 1;

// The number above a word's 26 low bits, and the number in them.
pub fn kind(w: u32) -> u32
    ensures { result ≡ kind_of w }
{
    w / KIND
}

pub fn number(w: u32) -> u32
    ensures { (result ≡ number_of w) × (result < 67108864) }
{
    w % KIND
}

// A position of a measure: a chord, `=`, `%` or `_`.
pub fn is_position(k: u32) -> bool
    ensures { result ≡ is_position k }
{
    k < CHORDS || REMOVER <= k
}

// A line end, `:` or `;`.
pub fn is_separator(k: u32) -> bool
    ensures { result ≡ is_separator k }
{
    LINE_END <= k && k <= SEMICOLON
}

// What ends a row: a closing bracket, or a word that is none of a pattern's.
pub fn is_stop(k: u32) -> bool
    ensures { result ≡ is_stop k }
{
    k == CLOSES || (CHORDS <= k && k <= WRONG)
}
