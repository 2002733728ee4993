// The token of a run of plain bytes, and that of a bracket with its count, as words.
ghost use Rattle.std.specs.Prelude.{◌≡◌, [], ◌∷◌, ◌*◌, ◌-◌, ◌≤◌, ◌<◌, true, false, length, get_or};
ghost use Rattle.tokens.specs.Bases.{base_of, is_letter, first_of};
ghost use Rattle.songcode.specs.Lists.{any};
ghost use Rattle.songcode.specs.Bytes.{placed, same};
ghost use Rattle.songcode.specs.Answer.Numbers.{count_in, repeat_in};
ghost use Rattle.std.proofs.Math.Option.{none};
ghost use Rattle.songcode.specs.Answer.Chords.{bases, is_taken, longest_from, chord_in};
ghost use Rattle.songcode.specs.Answer.Tokens.{chord_token, reference_token, closing_token, word_token};
ghost use Rattle.text.specs.Spans.{part};
ghost use Rattle.tokens.specs.TokenWords.{token_word};
ghost use Rattle.tokens.specs.Lexing.{is_slip_byte};

use super::bases::{Base, first_of};
use super::numbers::number_in;
use super::signs::{AGAIN_WORD, CLOSES, KIND, REFERENCE, REMOVER_WORD, SILENCE_WORD, WRONG_WORD};

// What a kind weighs, and the words of a reference and of a closing bracket before their counts.
const WEIGHT: usize = KIND as usize;

const REFERENCES: usize = REFERENCE as usize * WEIGHT;

const CLOSINGS: usize = CLOSES as usize * WEIGHT;

// The word is this one byte.
fn is_sign(sign: u8, w: &[u8]) -> bool
    ensures { result ≡ same (sign ∷ []) w.now }
{
    w == [sign].as_slice()
}

// The token of the count behind a `$`.
fn reference_token(w: &[u8]) -> u32
    ensures { result ≡ token_word (reference_token (count_in (placed 0 w.now))) }
{
    let Some(n) = number_in(1, 9999, w) else {
        return WRONG_WORD;
    };
    (REFERENCES + n) as u32
}

// The token of a `]` with the count behind it.
pub fn closing_token(w: &[u8]) -> u32
    ensures { result ≡ token_word (closing_token (repeat_in (placed 0 w.now))) }
{
    let Some(n) = number_in(2, 9999, w) else {
        return WRONG_WORD;
    };
    (CLOSINGS + n) as u32
}

// A byte that no extension holds.
fn is_slip(b: u8) -> bool
    ensures { result ≡ is_slip_byte b }
{
    matches!(b, b'%' | b'_' | b'=' | b'$')
}

// A text holds one.
pub fn has_slip(w: &[u8]) -> bool
    ensures { result ≡ any is_slip_byte w.now }
{
    w.iter().any(|b| is_slip(*b))
}

// The token of a chord that is a letter alone.
pub fn letter_token(letter: u8) -> u32
    requires { is_letter letter ≡ true }
    ensures { result ≡ first_of (letter - 65) * 67108864 }
{
    (first_of(letter) * WEIGHT) as u32
}

// The token of a chord by its base: with the place and length of its extension.
pub fn chord_token(s: &[u8], a: usize, e: usize, base: Base) -> u32
    requires { (a ≤ e) × (e ≤ length s.now) × (e ≤ 65536) × (base ≡ base_of (longest_from is_taken 0 bases (part a e s.now) none)) }
    ensures { result ≡ token_word (chord_token (chord_in (placed a (part a e s.now)))) }
{
    if base.length == 0 {
        return WRONG_WORD;
    }
    let kind = base.number * WEIGHT;
    let x = a + base.length;
    let k = e - x;
    if k == 0 {
        return kind as u32;
    }
    if 31 < k {
        return WRONG_WORD;
    }
    if has_slip(&s[x..e]) {
        return WRONG_WORD;
    }
    (kind + x * 1024 + k * 32) as u32
}

// The token of a word that is no chord: one of three signs, or a reference.
pub fn word_token(s: &[u8], a: usize, e: usize) -> u32
    requires { (a < e) × (e ≤ length s.now) × (is_letter (get_or s.now a 0) ≡ false) }
    ensures { result ≡ token_word (word_token (placed a (part a e s.now))) }
{
    if is_sign(b'%', &s[a..e]) {
        return AGAIN_WORD;
    }
    if is_sign(b'_', &s[a..e]) {
        return SILENCE_WORD;
    }
    if is_sign(b'=', &s[a..e]) {
        return REMOVER_WORD;
    }
    if s[a] == b'$' {
        return reference_token(&s[a + 1..e]);
    }
    WRONG_WORD
}
