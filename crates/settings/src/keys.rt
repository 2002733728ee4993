// The names of keys, and their settings.
ghost use Rattle.std.specs.Prelude.{◌≡◌};
ghost use Rattle.songcode.specs.Bytes.{placed};
ghost use Rattle.songcode.specs.Answer.Keys.{key_named, bpm_in, time_in};
ghost use Rattle.settings.specs.Names.{key_is};
ghost use Rattle.settings.specs.KeySettings.{is_setting_of};
ghost use Rattle.tokens.specs.Decimals.{number_of};

use super::parts::{if_named, length_before, same_text};
use super::phrases::is_phrase;
use text::byte_at;
use tokens::{is_base, number_in};

#[derive(Clone, Copy, PartialEq, Eq)]
pub enum KeyName {
    Name,
    Artist,
    Original,
    Capo,
    Bpm,
    Time,
    Warning,
    End,
}

// Each name has a first letter of its own.
pub fn key_named(w: &[u8]) -> Option<KeyName>
    ensures { result ≡ key_is (key_named (placed 0 w.now)) }
{
    match byte_at(w, 0) {
        b'n' => if_named(b"name", w, KeyName::Name),
        b'a' => if_named(b"artist", w, KeyName::Artist),
        b'o' => if_named(b"original", w, KeyName::Original),
        b'c' => if_named(b"capo", w, KeyName::Capo),
        b'b' => if_named(b"bpm", w, KeyName::Bpm),
        b't' => if_named(b"time", w, KeyName::Time),
        b'w' => if_named(b"warning", w, KeyName::Warning),
        b'e' => if_named(b"end", w, KeyName::End),
        _ => None,
    }
}

// A bpm is 0 to 400.
pub fn bpm_in(w: &[u8]) -> Option<usize>
    ensures { result ≡ number_of (bpm_in (placed 0 w.now)) }
{
    number_in(0, 400, w)
}

// A time is `n/4`, n from 1 to 32.
pub fn time_in(w: &[u8]) -> Option<usize>
    ensures { result ≡ number_of (time_in (placed 0 w.now)) }
{
    let q = length_before(b'/', w);
    if !same_text(b"/4", &w[q..]) {
        return None;
    }
    number_in(1, 32, &w[..q])
}

// The text is a setting of the key.
pub fn is_setting(k: KeyName, w: &[u8]) -> bool
    ensures { result ≡ is_setting_of k (placed 0 w.now) }
{
    match k {
        KeyName::Name | KeyName::Artist | KeyName::Warning | KeyName::End => is_phrase(w),
        KeyName::Original => is_base(w),
        KeyName::Capo => number_in(1, 20, w).is_some(),
        KeyName::Bpm => bpm_in(w).is_some(),
        KeyName::Time => time_in(w).is_some(),
    }
}
