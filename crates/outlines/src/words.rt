// The outlines of the definitions: each is a word of the row, behind its definition's head.
ghost use Rattle.std.specs.Prelude.{◌≡◌, ◌≤◌, ◌+◌, true, false, get_or, MatchOption};
ghost use Rattle.score.specs.Places.{place_of};
ghost use Rattle.outlines.specs.Words.{is_set, outline_word, outline_in, is_missing, look_up};

use super::readings::Outline;
use score::{entry_at, length_at, place_of};

// What the fields of the word weigh: the measures, the sizes, the depth, and a bit for each answer.
const MEASURES: usize = 32768;

const SIZES: usize = 512;

const WANTS: usize = 256;

const EMPTY: usize = 128;

const CHORD: usize = 64;

const REFERS: usize = 32;

const DEPTH: usize = 4;

const WHOLE: usize = 2;

// How many sizes and depths there are.
const ALL_SIZES: usize = 64;

const ALL_DEPTHS: usize = 8;

// The outline of an empty text.
const VACANT: Outline = Outline {
    empty: true,
    depth: 0,
    refers: false,
    sizes: 1,
    wants: false,
    chord: false,
    whole: true,
    measures: 0,
};

// An outline as a word.
#[tactic(auto, unfolding(crate::specs::Words::outline_word))]
pub fn outline_word(o: Outline) -> u32
    requires { (o.sizes ≤ 33) × (o.measures ≤ 65536) × (o.depth ≤ 7) }
    ensures { result ≡ outline_word o }
{
    let word = o.measures * MEASURES
        + o.sizes * SIZES
        + usize::from(o.wants) * WANTS
        + usize::from(o.empty) * EMPTY
        + usize::from(o.chord) * CHORD
        + usize::from(o.refers) * REFERS
        + o.depth * DEPTH
        + usize::from(o.whole) * WHOLE;
    word as u32
}

#[tactic(auto, unfolding(crate::specs::Words::is_set))]
fn is_set(w: usize, weight: usize) -> bool
    requires { 1 ≤ weight }
    ensures { result ≡ is_set w weight }
{
    (w / weight) % 2 == 1
}

// The outline that a word says.
#[tactic(auto, unfolding(crate::specs::Words::outline_in))]
fn outline_in(word: u32) -> Outline
    ensures { result ≡ outline_in word }
{
    let w = word as usize;
    Outline {
        empty: is_set(w, EMPTY),
        depth: w / DEPTH % ALL_DEPTHS,
        refers: is_set(w, REFERS),
        sizes: w / SIZES % ALL_SIZES,
        wants: is_set(w, WANTS),
        chord: is_set(w, CHORD),
        whole: is_set(w, WHOLE),
        measures: w / MEASURES,
    }
}

// The outline of the definition of that number, if there is one.
#[tactic(auto, unfolding(crate::specs::Words::is_missing))]
pub fn outline_if_defined(words: &[u32], x: u32) -> Option<Outline>
    ensures { MatchOption result (is_missing words.now x ≡ true)
        (λ o. (is_missing words.now x ≡ false) × (o ≡ outline_in (get_or words.now (place_of words.now x + 1) 0))) }
{
    let place = place_of(words, x);
    if length_at(words, place) == 0 {
        return None;
    }
    Some(outline_in(entry_at(words, place + 1)))
}

// Whether no definition has that number.
pub fn is_missing(words: &[u32], x: u32) -> bool
    ensures { result ≡ is_missing words.now x }
{
    outline_if_defined(words, x).is_none()
}

// The outline of the definition of that number; that of an empty text where there is none.
#[tactic(auto, unfolding(crate::specs::Words::look_up, crate::specs::Words::vacant))]
pub fn outline_for(words: &[u32], x: u32) -> Outline
    ensures { result ≡ look_up words.now x }
{
    outline_if_defined(words, x).unwrap_or(VACANT)
}
