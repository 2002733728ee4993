// How many bytes of a word that is wrong, or may not stand where it stands, are the beginning of a right one.
ghost use Rattle.std.specs.Prelude.{◌≤◌, length};

use grammar::Kind;
use text::byte_at;
use tokens::longest_base;

// An extension has at most so many bytes, a number so many digits.
const EXTENSION_MOST: usize = 31;

const DIGITS_MOST: usize = 4;

// A `$` or, where all are asked for, a sign that no extension holds.
fn is_sign(b: u8, all: bool) -> bool {
    b == b'$' || all && matches!(b, b'%' | b'_' | b'=')
}

// Where the first such sign of a word stands, or its end.
pub fn sign_at(w: &[u8], all: bool) -> usize
    ensures { result ≤ length w.now }
{
    w.iter().position(|b| is_sign(*b, all)).unwrap_or(w.len())
}

// Whether a byte may follow so many digits of a number: no zero comes first.
fn is_digit_behind(n: usize, b: u8) -> bool {
    matches!(b, b'1'..=b'9') || b == b'0' && 0 < n
}

// How many digits behind the first byte begin a number, at most four.
fn digits_behind(w: &[u8]) -> usize
    ensures { result ≤ 4 }
{
    for n in 0..DIGITS_MOST {
        if !is_digit_behind(n, byte_at(w, n + 1)) {
            return n;
        }
    }
    DIGITS_MOST
}

// What a word with this first byte would be: a reference, a loop's end, a remover, or a chord, `%` or `_`.
pub fn kind_begun(first: u8) -> Kind {
    match first {
        b'$' => Kind::Reference,
        b']' => Kind::Closes,
        b'=' => Kind::Remover,
        _ => Kind::Sound,
    }
}

// How many bytes of a word may stand, if such a word may: a sign with the digits of its number, a sign alone, a chord with its extension.
pub fn bytes_begun(w: &[u8]) -> usize {
    match byte_at(w, 0) {
        b'$' | b']' => digits_behind(w) + 1,
        b'%' | b'_' | b'=' => 1,
        _ => {
            let base = longest_base(w);
            if base.length == 0 {
                return 0;
            }
            sign_at(w, true).min(base.length.saturating_add(EXTENSION_MOST))
        }
    }
}
