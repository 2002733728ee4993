// Texts measured in characters: phrases and headers.
ghost use Rattle.std.specs.Prelude.{◌≡◌, ◌≤◌, length};
ghost use Rattle.songcode.specs.Bytes.{placed};
ghost use Rattle.songcode.specs.Answer.Characters as songcode;
ghost use Rattle.songcode.specs.Answer.Keys.{is_phrase};
ghost use Rattle.settings.specs.Phrases.{is_header};

use super::parts::length_before;
use text::is_tail;

// How many characters a text has: each byte that is no tail begins one.
pub fn characters(w: &[u8]) -> usize
    ensures { (result ≡ songcode.characters (placed 0 w.now)) × (result ≤ length w.now) }
{
    let mut n = 0;
    for &b in w {
        n += usize::from(!is_tail(b));
    }
    n
}

// 1 to 100 characters.
pub fn is_phrase(w: &[u8]) -> bool
    ensures { result ≡ is_phrase (placed 0 w.now) }
{
    let n = characters(w);
    1 <= n && n <= 100
}

// A header whose name, up to the first `!`, has 1 to 50 characters.
pub fn header_ok(w: &[u8]) -> bool
    ensures { result ≡ is_header (placed 0 w.now) }
{
    let q = length_before(b'!', w);
    let n = characters(&w[..q]);
    1 <= n && n <= 50
}
