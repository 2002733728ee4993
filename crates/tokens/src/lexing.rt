// The tokens of a line, one after another, and the buffer that keeps their words.
ghost use Rattle.std.specs.Prelude.{◌≡◌, [], ◌∷◌, ◌+◌, ◌*◌, ◌-◌, ◌^◌, ◌≤◌, ◌<◌, true, false, ltb, length, get_or};
ghost use Rattle.std.proofs.lemmas.List.Edits.{sets};
ghost use Rattle.tokens.specs.Bases.{is_letter};
ghost use Rattle.tokens.specs.TokenWords.{token_words};
ghost use Rattle.text.specs.Spans.{part, blank};
ghost use Rattle.tokens.specs.Lexing.{is_plain, plain_length, tokens_from, Reads};

use super::bases::{base_of, is_letter};
use super::signs::{COLON_WORD, LINE_END_WORD, OPENS_WORD, SEMICOLON_WORD};
use super::words::{chord_token, closing_token, letter_token, word_token};
use text::{front_blanks, is_blank};

// A token's word, and the place where the next token may begin.
#[derive(Clone, Copy)]
pub struct Lexed {
    pub word: u32,
    pub next: usize,
}

// A byte that may stand in a word.
fn is_plain(b: u8) -> bool
    ensures { result ≡ is_plain b }
{
    !is_blank(b) && !matches!(b, b';' | b':' | b'[' | b']')
}

// Where the plain bytes from a place on end.
fn plain_end(s: &[u8], from: usize, stop: usize) -> usize
    requires { (from ≤ stop) × (stop ≤ length s.now) }
    ensures { (result ≡ from + plain_length (part from stop s.now)) × (result ≤ stop) }
{
    let rest = &s[from..stop];
    from + rest
        .iter()
        .position(|b| !is_plain(*b))
        .unwrap_or(rest.len())
}

// A plain byte stands at a place.
fn plain_at(s: &[u8], i: usize, stop: usize) -> bool
    requires { stop ≤ length s.now }
    ensures { result ≡ ltb 0 (plain_length (part i stop s.now)) }
{
    i < stop && is_plain(s[i])
}

// The token of a chord and the place behind it; a letter alone is known at once.
fn chord_at(s: &[u8], a: usize, stop: usize) -> Lexed
    requires { (a < stop) × (stop ≤ length s.now) × (stop ≤ 65536) × (is_letter (get_or s.now a 0) ≡ true) }
    ensures { Reads s.now a stop (Some result) }
{
    let letter = s[a];
    if !plain_at(s, a + 1, stop) {
        return Lexed {
            word: letter_token(letter),
            next: a + 1,
        };
    }
    let base = base_of(letter, &s[a..stop]);
    let e = plain_end(s, a + base.length, stop);
    Lexed {
        word: chord_token(s, a, e, base),
        next: e,
    }
}

// The token that begins at a place, and the place behind it.
fn token_at(s: &[u8], a: usize, stop: usize) -> Lexed
    requires { (a < stop) × (stop ≤ length s.now) × (stop ≤ 65536) × (blank (get_or s.now a 0) ≡ false) }
    ensures { Reads s.now a stop (Some result) }
{
    let b = s[a];
    if is_letter(b) {
        return chord_at(s, a, stop);
    }
    if b == b';' {
        return Lexed {
            word: SEMICOLON_WORD,
            next: a + 1,
        };
    }
    if b == b':' {
        return Lexed {
            word: COLON_WORD,
            next: a + 1,
        };
    }
    if b == b'[' {
        return Lexed {
            word: OPENS_WORD,
            next: a + 1,
        };
    }
    let e = plain_end(s, a + 1, stop);
    if b == b']' {
        return Lexed {
            word: closing_token(&s[a + 1..e]),
            next: e,
        };
    }
    Lexed {
        word: word_token(s, a, e),
        next: e,
    }
}

// The first token of a part of a text: most stand where the part begins.
pub fn next_token(s: &[u8], at: usize, stop: usize) -> Option<Lexed>
    requires { (at ≤ stop) × (stop ≤ length s.now) × (stop ≤ 65536) }
    ensures { Reads s.now at stop result }
{
    if stop <= at {
        return None;
    }
    if !is_blank(s[at]) {
        return Some(token_at(s, at, stop));
    }
    let a = at + 1 + front_blanks(&s[at + 1..stop]);
    if stop <= a {
        return None;
    }
    Some(token_at(s, a, stop))
}

// The words of a line's tokens, laid into the buffer from n on; the new fill is returned.
pub fn lex_line(s: &[u8], start: usize, stop: usize, words: &mut [u32], n: usize) -> usize
    requires { (start ≤ stop) × (stop ≤ length s.now) × (stop ≤ 65536) × (n + (stop - start) ≤ length words.old) }
    ensures held { words.new ≡ sets words.old n (token_words (tokens_from start stop s.now)) }
    ensures fill { (result ≡ n + length (token_words (tokens_from start stop s.now))) × (result ≤ n + (stop - start)) }
{
    let mut at = start;
    let mut fill = n;
    while let Some(token) = next_token(s, at, stop) {
        words[fill] = token.word;
        fill += 1;
        at = token.next;
    }
    fill
}

// The word of a line end, laid into the buffer at n; the new fill is returned.
pub fn end_line(words: &mut [u32], n: usize) -> usize
    requires { n < length words.old }
    ensures held { words.new ≡ sets words.old n (58 * 2 ^ 26 ∷ []) }
    ensures fill { result ≡ n + 1 }
{
    words[n] = LINE_END_WORD;
    n + 1
}
