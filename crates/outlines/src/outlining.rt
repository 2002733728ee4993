// The outline of a stretch of token words, in one pass.
ghost use Rattle.std.specs.Prelude.{◌≡◌, ◌≤◌, take, drop};
ghost use Rattle.outlines.specs.Readings.{Nested, nested, word_read, words_read, outlined};
ghost use Rattle.outlines.specs.Words.{look_up};

use super::readings::{Outline, Reading, advance, refer, sound, start, sum_up};
use super::words::outline_for;
use score::Stretch;
use tokens::{CHORDS, LOOPS_DEEP, REFERENCE, kind, number};

// One word, most often a chord; a reference says what the outline of its definition says.
#[tactic(auto, unfolding(crate::specs::Readings::word_read))]
pub fn follow(words: &[u32], around: &mut [usize], s: Reading, w: u32) -> Reading
    ensures { ◌≡◌ {A = Nested} (nested result around.new) (word_read (look_up words.now) (nested s around.old) w) }
{
    let k = kind(w);
    if k < CHORDS {
        return sound(k, s);
    }
    if k == REFERENCE {
        return refer(outline_for(words, number(w)), s);
    }
    advance(around, s, w)
}

// All words of a stretch.
pub fn read_words(words: &[u32], text: Stretch, around: &mut [usize], first: Reading) -> Reading
    ensures { result ≡ (words_read (look_up words.now) (nested first around.old)
        (drop text.from (take text.to words.now))).reading }
{
    let mut s = first;
    for w in text.words(words) {
        s = follow(words, around, s, *w);
    }
    s
}

pub fn outline_of(words: &[u32], text: Stretch) -> Outline
    ensures outline { result ≡ outlined (look_up words.now) (drop text.from (take text.to words.now)) }
    ensures small { (result.sizes ≤ 33) × (result.measures ≤ 65536) × (result.depth ≤ 7) }
{
    let mut around = [0usize; LOOPS_DEEP];
    let s = read_words(words, text, &mut around, start());
    sum_up(text.words(words).is_empty(), s)
}
