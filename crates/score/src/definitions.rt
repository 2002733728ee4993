// The definitions at the front of the row, found from head to head. Every function is safe on every content.
ghost use Rattle.std.specs.Prelude.{◌≡◌, ◌≤◌, get_or};
ghost use Rattle.score.specs.Places.{head_word, length_at, id_at, place_of, stretch_of, played_text};

use super::stretches::{Stretch, word_at};
use tokens::{REFERENCE, kind, number};

// A head is a length times 2^15 and a number times 2.
const LENGTH: u32 = 32768;

const NUMBER: u32 = 2;
// A definition has two words before its text: the head and the outline.
pub const HEADS: usize = 2;
// A chart has 26 definitions at most.
const MOST: usize = 26;

// The word at a place; 0 past the end.
pub fn entry_at(words: &[u32], at: usize) -> u32
    ensures { result ≡ get_or words.now at 0 }
{
    words.get(at).copied().unwrap_or(0)
}

// The head of a definition of that length and number.
pub fn head_word(length: usize, id: usize) -> u32
    requires { (length ≤ 131071) × (id ≤ 9999) }
    ensures { result ≡ head_word length id }
{
    (length as u32) * LENGTH + (id as u32) * NUMBER
}

// The length of the definition at a place, all its words; 0 at the mark behind the last one.
pub fn length_at(words: &[u32], at: usize) -> usize
    ensures { (result ≡ length_at words.now at) × (result ≤ 131071) }
{
    (entry_at(words, at) / LENGTH) as usize
}

// The number of that definition.
fn id_at(words: &[u32], at: usize) -> u32
    ensures { result ≡ id_at words.now at }
{
    entry_at(words, at) % LENGTH / NUMBER
}

// The place of the definition of that number; the mark's where there is none.
pub fn place_of(words: &[u32], x: u32) -> usize
    ensures { (result ≡ place_of words.now x) × (result ≤ 3407846) }
{
    let mut at = 0;
    for _ in 0..MOST {
        let length = length_at(words, at);
        if length == 0 || id_at(words, at) == x {
            return at;
        }
        at += length;
    }
    at
}

// Where the words of that definition's text stand; an empty stretch where there is none.
#[tactic(auto, unfolding(crate::specs::Places::stretch_of))]
pub fn stretch_of(words: &[u32], x: u32) -> Stretch
    ensures { result ≡ stretch_of words.now x }
{
    let place = place_of(words, x);
    Stretch {
        from: place + HEADS,
        to: place + length_at(words, place),
    }
}

// What is played of a text: where it begins with `$n`, the definition's words.
#[tactic(auto, unfolding(crate::specs::Places::played_text))]
pub fn played_text(words: &[u32], text: Stretch) -> Stretch
    ensures { result ≡ played_text words.now text }
{
    let w = word_at(words, text.to, text.from);
    if kind(w) == REFERENCE {
        return stretch_of(words, number(w));
    }
    text
}
