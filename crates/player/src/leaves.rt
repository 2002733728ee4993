// What a position sounds, how often a loop is played and where it ends. Every function is safe on every content.
ghost use Rattle.std.specs.Prelude.{◌≡◌, ◌+◌, ◌/◌, ◌<◌, ◌≤◌};
ghost use Rattle.player.specs.Signs.{voice_of, chord_of, sounds_as};
ghost use Rattle.player.specs.Walks.{passes_of, behind_of};

use super::heard::Sound;
use score::word_at;
use tokens::{AGAIN, CHORDS, CLOSES, REMOVER, SILENCE_WORD, kind, number};

// What a position sounds; the last chord for `%`, silence where no chord was yet.
pub fn voice(last: Sound, w: u32) -> Sound
    ensures { result.word ≡ voice_of last.word w }
{
    let k = kind(w);
    if k < CHORDS {
        Sound { word: w }
    } else if k == AGAIN {
        last
    } else {
        Sound { word: SILENCE_WORD }
    }
}

// The last chord behind a position.
pub fn chord_after(last: Sound, w: u32) -> Sound
    ensures { result.word ≡ chord_of last.word w }
{
    if kind(w) < CHORDS {
        Sound { word: w }
    } else {
        last
    }
}

// A remover sounds nothing.
pub fn sounds(k: u32) -> usize
    ensures { (result ≡ sounds_as k) × (result ≤ 1) }
{
    usize::from(k != REMOVER)
}

// How often the loop whose row ends at `at` is played after its first pass.
#[tactic(auto, unfolding(crate::specs::Walks::passes_of))]
pub fn passes(words: &[u32], to: usize, at: usize) -> usize
    ensures { (result ≡ passes_of words.now to at) × (result < 67108864) }
{
    (number(word_at(words, to, at)) as usize).saturating_sub(1)
}

// The place behind the closing bracket at `at`.
pub fn behind(words: &[u32], to: usize, at: usize) -> usize
    ensures { (result ≡ behind_of words.now to at) × (at ≤ result) }
{
    if kind(word_at(words, to, at)) == CLOSES {
        at + 1
    } else {
        at
    }
}

// A share of n among p, 0 among none.
pub fn share_of(n: usize, p: usize) -> usize
    ensures { result ≡ n / p }
{
    n.checked_div(p).unwrap_or(0)
}
