// Parts of a text: whether one is a quoted word, where a name ends, where a setting begins.
ghost use Rattle.std.specs.Prelude.{◌≡◌, ◌≤◌, length};
ghost use Rattle.songcode.specs.Bytes.{placed, same};
ghost use Rattle.songcode.specs.Answer.Keys.{name_in, setting_in};
ghost use Rattle.text.specs.Spans.{part};
ghost use Rattle.settings.specs.Names.{if_named};
ghost use Rattle.settings.specs.Parts.{word_length, length_before};

use text::{front_blanks, is_blank};

// Both texts are the same.
pub fn same_text(word: &[u8], w: &[u8]) -> bool
    ensures { result ≡ same word.now w.now }
{
    word == w
}

// A name's value, if the text is the name.
pub fn if_named<K: Copy>(name: &[u8], w: &[u8], value: K) -> Option<K>
    ensures { result ≡ if_named (same name.now w.now) value }
{
    same_text(name, w).then_some(value)
}

// How many bytes stand before the first blank, or before the end.
pub fn word_length(w: &[u8]) -> usize
    ensures { (result ≡ word_length w.now) × (result ≤ length w.now) }
{
    w.iter().position(|b| is_blank(*b)).unwrap_or(w.len())
}

// How many bytes stand before the first one of this value, or before the end.
pub fn length_before(c: u8, w: &[u8]) -> usize
    ensures { (result ≡ length_before c w.now) × (result ≤ length w.now) }
{
    w.iter().position(|b| *b == c).unwrap_or(w.len())
}

// Where the name ends that begins at a place.
pub fn name_end(s: &[u8], a: usize, e: usize) -> usize
    requires { (a ≤ e) × (e ≤ length s.now) }
    ensures { (name_in (placed a (part a e s.now)) ≡ placed a (part a result s.now)) × (a ≤ result) × (result ≤ e) }
{
    a + word_length(&s[a..e])
}

// Where the setting begins behind the name that begins at a place.
pub fn setting_start(s: &[u8], a: usize, e: usize) -> usize
    requires { (a ≤ e) × (e ≤ length s.now) }
    ensures { (setting_in (placed a (part a e s.now)) ≡ placed result (part result e s.now)) × (a ≤ result) × (result ≤ e) }
{
    let q = a + word_length(&s[a..e]);
    q + front_blanks(&s[q..e])
}
