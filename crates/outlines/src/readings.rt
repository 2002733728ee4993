// The outline of a text, and the state in which it is read, word by word.
ghost use Rattle.std.specs.Prelude.{◌≡◌};
ghost use Rattle.outlines.specs.Readings.{started, sounded, closed, opened, loop_shut, referred, Nested, nested, step_of, summed};

use super::around::{keep, kept};
use super::signs::{capped_sum, capped_times, inner_level, one_more};
use super::sizes::join;
use tokens::{AGAIN, CHORDS, CLOSES, OPENS, REMOVER, is_position, kind, number};

// What a text says: whether it is empty, whether it holds a reference; then with its references put in: whether a `%` stands before every chord, whether
// it has a chord, whether it has no remover; how deep its own loops are; with its references put in the sizes of its measures, and how many measures it
// plays, 65,536 where they are more.
#[derive(Clone, Copy)]
pub struct Outline {
    pub empty: bool,
    pub refers: bool,
    pub wants: bool,
    pub chord: bool,
    pub whole: bool,
    pub depth: usize,
    pub sizes: usize,
    pub measures: usize,
}

// A text read up to some place: the positions of the measure at hand, how many measures the row at hand has so far, how many loops are
// open around it, and how many were at most.
#[derive(Clone, Copy)]
pub struct Reading {
    pub refers: bool,
    pub wants: bool,
    pub chord: bool,
    pub whole: bool,
    pub sizes: usize,
    pub positions: usize,
    pub count: usize,
    pub level: usize,
    pub deepest: usize,
}

#[tactic(auto, unfolding(crate::specs::Readings::started))]
pub fn start() -> Reading
    ensures { result ≡ started }
{
    Reading {
        refers: false,
        sizes: 1,
        wants: false,
        chord: false,
        whole: true,
        positions: 0,
        count: 0,
        level: 0,
        deepest: 0,
    }
}

// A position of a measure, of kind `k`.
#[tactic(auto, unfolding(crate::specs::Readings::sounded))]
pub fn sound(k: u32, s: Reading) -> Reading
    ensures { result ≡ sounded k s }
{
    Reading {
        wants: s.wants | ((k == AGAIN) & !s.chord),
        chord: s.chord | (k < CHORDS),
        whole: s.whole & (k != REMOVER),
        positions: one_more(s.positions),
        ..s
    }
}

// The end of a measure, if one is at hand.
#[tactic(auto, unfolding(crate::specs::Readings::closed))]
pub fn close(s: Reading) -> Reading
    ensures { result ≡ closed s }
{
    if s.positions == 0 {
        return s;
    }
    Reading {
        sizes: join(s.sizes, s.positions),
        positions: 0,
        count: capped_sum(s.count, 1),
        ..s
    }
}

// An opening bracket: the row inside begins.
#[tactic(auto, unfolding(crate::specs::Readings::opened))]
pub fn open(s: Reading) -> Reading
    ensures { result ≡ opened s }
{
    let level = inner_level(s.level);
    Reading {
        count: 0,
        level,
        deepest: s.deepest.max(level),
        ..s
    }
}

// A closing bracket behind the last measure: the row is played `n` times, behind the `outer` measures before its loop.
#[tactic(auto, unfolding(crate::specs::Readings::loop_shut))]
pub fn shut_loop(n: u32, outer: usize, s: Reading) -> Reading
    ensures { result ≡ loop_shut n outer s }
{
    Reading {
        count: capped_sum(outer, capped_times(n, s.count)),
        level: s.level.saturating_sub(1),
        ..s
    }
}

// A reference to a text of that outline.
#[tactic(auto, unfolding(crate::specs::Readings::referred))]
pub fn refer(o: Outline, s: Reading) -> Reading
    ensures { result ≡ referred o s }
{
    Reading {
        refers: true,
        sizes: join(s.sizes, o.sizes),
        wants: s.wants | (o.wants & !s.chord),
        chord: s.chord | o.chord,
        whole: s.whole & o.whole,
        count: capped_sum(s.count, o.measures),
        ..s
    }
}

// Any word but a reference: the number of a row waits in `around` from an opening bracket to the closing one.
#[tactic(auto, unfolding(crate::specs::Readings::step_of, crate::specs::Readings::entered, crate::specs::Readings::left))]
pub fn advance(around: &mut [usize], s: Reading, w: u32) -> Reading
    ensures { ◌≡◌ {A = Nested} (nested result around.new) (step_of (nested s around.old) w) }
{
    let k = kind(w);
    if is_position(k) {
        return sound(k, s);
    }
    if k == OPENS {
        keep(around, s.level, s.count);
        return open(s);
    }
    if k == CLOSES {
        let outer = kept(around, s.level.saturating_sub(1));
        return shut_loop(number(w), outer, close(s));
    }
    close(s)
}

// The outline of the text read to its end.
#[tactic(auto, unfolding(crate::specs::Readings::summed))]
pub fn sum_up(empty: bool, s: Reading) -> Outline
    ensures { result ≡ summed empty (closed s) }
{
    let c = close(s);
    Outline {
        empty,
        depth: c.deepest,
        refers: c.refers,
        sizes: c.sizes,
        wants: c.wants,
        chord: c.chord,
        whole: c.whole,
        measures: c.count,
    }
}
