// Lyric lines: their counts, their texts without them, and the styles of these.
ghost use Rattle.std.specs.Prelude.{◌≡◌, [], ◌∷◌, reverse, ◌≤◌, length};
ghost use Rattle.songcode.specs.Lists.{left};
ghost use Rattle.songcode.specs.Bytes.{placed, begins, not_blank};
ghost use Rattle.songcode.specs.Answer.Lyrics.{bracketed, count_behind, styled, words_of};
ghost use Rattle.text.specs.Spans.{part};
ghost use Rattle.settings.specs.LyricParts.{styled_from, words_from};
ghost use Rattle.tokens.specs.Decimals.{number_of};

use text::{is_blank, solid_len};
use tokens::number_in;

// Where a lyric line's text without its count ends, and the count; 0 where it has none.
#[derive(Drop)]
pub struct Words {
    pub stop: usize,
    pub count: usize,
}

// A text's style, and the places of its first byte and behind its last one without the marks.
#[derive(Drop)]
pub struct Styled {
    pub style: usize,
    pub start: usize,
    pub stop: usize,
}

// Where the last word begins: behind the last blank.
fn word_start(s: &[u8], a: usize, e: usize) -> usize
    requires { (a ≤ e) × (e ≤ length s.now) }
    ensures { (left not_blank (reverse (placed a (part a e s.now))) ≡ reverse (placed a (part a result s.now))) × (a ≤ result) × (result ≤ e) }
{
    let word = &s[a..e];
    word.iter()
        .rposition(|b| is_blank(*b))
        .map_or(a, |i| a + i + 1)
}

// The count that a word is: a number behind `_`.
fn count_behind(w: &[u8]) -> Option<usize>
    ensures { result ≡ number_of (count_behind (placed 0 w.now)) }
{
    number_in(1, 9999, w.strip_prefix(b"_")?)
}

// The text and the count of a lyric line: a count is its last word, with something before.
pub fn lyric_words(s: &[u8], a: usize, e: usize) -> Words
    requires { (a ≤ e) × (e ≤ length s.now) }
    ensures { (words_of (placed a (part a e s.now)) ≡ words_from result a s.now) × (a ≤ result.stop) × (result.stop ≤ e) × (result.count ≤ 9999) }
{
    let k = word_start(s, a, e);
    if k == a {
        return Words { stop: e, count: 0 };
    }
    match count_behind(&s[k..e]) {
        Some(n) => Words {
            stop: a + solid_len(&s[a..k]),
            count: n,
        },
        None => Words { stop: e, count: 0 },
    }
}

// The byte m three times.
fn is_thrice(m: u8, x: u8, y: u8, z: u8) -> bool
    ensures { result ≡ begins (m ∷ m ∷ m ∷ []) (x ∷ y ∷ z ∷ []) }
{
    m == x && m == y && m == z
}

// The byte m three times at both ends of at least 7 bytes.
fn is_marked(m: u8, w: &[u8]) -> bool
    ensures { result ≡ bracketed (m ∷ m ∷ m ∷ []) (placed 0 w.now) }
{
    let n = w.len();
    if n < 7 {
        return false;
    }
    is_thrice(m, w[0], w[1], w[2]) && is_thrice(m, w[n - 1], w[n - 2], w[n - 3])
}

// The style of a text, and what lies between its marks.
pub fn style_of(s: &[u8], a: usize, e: usize) -> Styled
    requires { (a ≤ e) × (e ≤ length s.now) }
    ensures { (styled (placed a (part a e s.now)) ≡ styled_from result s.now) × (a ≤ result.start) × (result.start ≤ result.stop)
        × (result.stop ≤ e) × (result.style ≤ 2) }
{
    if is_marked(b'*', &s[a..e]) {
        return Styled {
            style: 1,
            start: a + 3,
            stop: e - 3,
        };
    }
    if is_marked(b':', &s[a..e]) {
        return Styled {
            style: 2,
            start: a + 3,
            stop: e - 3,
        };
    }
    Styled {
        style: 0,
        start: a,
        stop: e,
    }
}
