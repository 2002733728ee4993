// A section: counted, its cuts turned into two numbers, and written in one forward pass.
ghost use Rattle.std.specs.Prelude.{◌≡◌, ◌+◌, ◌-◌, ◌*◌, ◌≤◌, min, true, ◌++◌, length, take, ◌≢◌};
ghost use Rattle.songcode.specs.Lists.{times};
ghost use Rattle.songcode.specs.Description.Performance.{total};
ghost use Rattle.player.specs.Page.{Fine, SameTables, play, shown};
ghost use Rattle.player.specs.Walks.{row_of};
ghost use Rattle.player.specs.Windows.{window, first_beat, last_beat};
ghost use Rattle.player.specs.Arrangements.{repeated_row, arranged_row, Countable, PlaysWithin, Opening, Plays, PlaysOn};

use super::heard::Sound;
use super::measures::{Scope, Walk};
use super::pens::{Page, Pen};
use super::walks::{again, items};
use cuts::Cut;
use score::Stretch;
use tokens::SILENCE_WORD;

#[derive(Clone, Copy)]
pub struct Counts {
    pub measures: usize,
    pub beats: usize,
}

// What a section plays: in its N, the lead-in, the pattern as often as it is repeated less both cuts, the tail. Each text may be an empty stretch.
// `even` is how many measures the pattern has where each of them has N beats, else 0.
#[derive(Clone, Copy)]
pub struct Arrangement {
    pub n: usize,
    pub lead: Stretch,
    pub pattern: Stretch,
    pub tail: Stretch,
    pub repeat: usize,
    pub front: Cut,
    pub back: Cut,
    pub even: usize,
}

// How many measures a row has, the beats to pass over, the beats to write.
#[derive(Clone, Copy)]
pub struct Plan {
    pub todo: usize,
    pub skip: usize,
    pub left: usize,
}

// A stretch, r times, if anything stands there; nothing more is looked at once no measure is to be looked at.
pub fn rounds(words: &[u32], n: usize, s: Stretch, r: usize, page: &mut Page)
    requires { Fine page.old.pen × (n ≤ 32) }
    ensures played { shown page.new ≡ play (times r (row_of n words.now s)) (shown page.old) }
    ensures tables { SameTables page.old page.new }
{
    if s.to <= s.from || r == 0 || page.pen.todo == 0 {
        return;
    }
    let scope = Scope {
        words,
        n,
        to: s.to,
        depth: 8,
    };
    let start = Walk {
        at: s.from,
        last: Sound { word: SILENCE_WORD },
    };
    let before = page.pen;
    items(scope, start, page);
    again(scope, start, before, r - 1, page);
}

// How many of the first k measures of the repeated pattern there are, and their beats: a walk with every beat passed over.
fn tally_by_walking(words: &[u32], a: Arrangement, k: usize) -> Counts
    requires { (a.n ≤ 32) × (k ≤ 65536) }
    ensures measures { result.measures ≡ min k (length (repeated_row words.now a)) }
    ensures beats { result.beats ≡ total (take k (repeated_row words.now a)) }
    ensures bound { result.beats ≤ 2097152 }
{
    let every = Pen {
        base: 0,
        todo: k,
        skip: 4294967295,
        left: 0,
        m: 0,
        b: 0,
    };
    let mut page = Page {
        pen: every,
        measures: &mut [],
        beats: &mut [],
    };
    rounds(words, a.n, a.pattern, a.repeat, &mut page);
    Counts {
        measures: k - page.pen.todo,
        beats: 4294967295 - page.pen.skip,
    }
}

// The same; nothing is walked where every measure has n beats.
pub fn tally(words: &[u32], a: Arrangement, k: usize) -> Counts
    requires { Countable words.now a × (k ≤ 65536) }
    ensures measures { result.measures ≡ min k (length (repeated_row words.now a)) }
    ensures beats { result.beats ≡ total (take k (repeated_row words.now a)) }
    ensures bound { result.beats ≤ 2097152 }
{
    if a.even == 0 {
        return tally_by_walking(words, a, k);
    }
    let measures = k.min(a.repeat * a.even);
    Counts {
        measures,
        beats: a.n * measures,
    }
}

// The beats of the first k measures; nothing is walked for none.
#[tactic(auto, unfolding(songcode::specs::Description::Performance::total))]
fn beats_before(words: &[u32], a: Arrangement, k: usize) -> usize
    requires { Countable words.now a × (k ≤ 65536) }
    ensures { (result ≡ total (take k (repeated_row words.now a))) × (result ≤ 2097152) }
{
    if k == 0 {
        return 0;
    }
    tally(words, a, k).beats
}

// The beats of all measures but so many at the end, where all of them were counted.
fn beats_but(words: &[u32], a: Arrangement, all: Counts, cut: usize) -> usize
    requires { Countable words.now a × (all.measures ≤ 65536) × (all.beats ≡ total (take all.measures (repeated_row words.now a)))
        × (all.beats ≤ 2097152) }
    ensures { (result ≡ total (take (all.measures - cut) (repeated_row words.now a))) × (result ≤ 2097152) }
{
    if cut == 0 {
        return all.beats;
    }
    beats_before(words, a, all.measures.saturating_sub(cut))
}

// The two cuts as two numbers.
pub fn planned(words: &[u32], a: Arrangement) -> Plan
    requires { Countable words.now a }
    ensures todo { result.todo ≡ length (repeated_row words.now a) }
    ensures skip { result.skip ≡ first_beat a.front (repeated_row words.now a) }
    ensures left { result.left ≡ last_beat a.back (repeated_row words.now a) - first_beat a.front (repeated_row words.now a) }
{
    let all = tally(words, a, 65536);
    let first = beats_before(words, a, a.front.measures.0.min(65536)) + a.front.beats.0;
    let last = beats_but(words, a, all, a.back.measures.0);
    Plan {
        todo: all.measures,
        skip: first,
        left: last.saturating_sub(a.back.beats.0).saturating_sub(first),
    }
}

// The pen for a whole text, in front of both tables.
pub fn opening(base: usize, skip: usize, left: usize) -> Pen
    ensures { (result.base ≡ base) × (result.todo ≡ 65536) × (result.skip ≡ skip) × (result.left ≡ left) × (result.m ≡ 0) × (result.b ≡ 0) }
{
    Pen {
        base,
        todo: 65536,
        skip,
        left,
        m: 0,
        b: 0,
    }
}

// How many measures are to be looked at where so many beats are to be written: none for none.
fn looked_at(left: usize, todo: usize) -> usize
    ensures { (left ≢ 0) → result ≡ todo }
{
    if left == 0 { 0 } else { todo }
}

// The pen for the pattern, behind the lead-in: the plan passes over its beats and over those that the lead-in left.
fn at_pattern(plan: Plan, lead: Pen) -> Pen
    requires { plan.skip + lead.skip ≤ 18446744073709551615 }
    ensures numbers { (result.base ≡ lead.base) × (result.m ≡ lead.m) × (result.b ≡ lead.b) }
    ensures skip { result.skip ≡ plan.skip + lead.skip }
    ensures left { result.left ≡ min lead.left (plan.left - lead.skip) }
    ensures todo { (result.left ≢ 0) → result.todo ≡ plan.todo }
{
    let left = lead.left.min(plan.left.saturating_sub(lead.skip));
    Pen {
        todo: looked_at(left, plan.todo),
        skip: plan.skip + lead.skip,
        left,
        ..lead
    }
}

// The pen for the tail, behind the pattern.
fn at_tail(plan: Plan, lead: Pen, pattern: Pen) -> Pen
    ensures numbers { (result.base ≡ pattern.base) × (result.m ≡ pattern.m) × (result.b ≡ pattern.b) }
    ensures skip { result.skip ≡ lead.skip - plan.left }
    ensures left { result.left ≡ lead.left - (plan.left - lead.skip) }
    ensures todo { (result.left ≢ 0) → result.todo ≡ 65536 }
{
    let left = lead
        .left
        .saturating_sub(plan.left.saturating_sub(lead.skip));
    Pen {
        todo: looked_at(left, 65536),
        skip: lead.skip.saturating_sub(plan.left),
        left,
        ..pattern
    }
}

// The lead-in, the pattern repeated less the two cuts, and the tail, on one page: as many beats as are to be written, behind those that are
// passed over.
pub fn play_cut(words: &[u32], a: Arrangement, page: &mut Page) -> Counts
    requires { PlaysWithin words.now a 0 × Opening page.old.pen }
    ensures played { PlaysOn (window page.old.pen.skip page.old.pen.left (arranged_row words.now a)) result page.old page.new }
    ensures tables { SameTables page.old page.new }
{
    let plan = planned(words, a);
    rounds(words, a.n, a.lead, 1, page);
    let led = page.pen;
    page.pen = at_pattern(plan, led);
    rounds(words, a.n, a.pattern, a.repeat, page);
    page.pen = at_tail(plan, led, page.pen);
    rounds(words, a.n, a.tail, 1, page);
    Counts {
        measures: page.pen.m,
        beats: page.pen.b,
    }
}

// Whether both cuts take nothing.
fn is_uncut(front: Cut, back: Cut) -> bool
    ensures { result ≡ true → (front.measures.0 ≡ 0) × (front.beats.0 ≡ 0) × (back.measures.0 ≡ 0) × (back.beats.0 ≡ 0) }
{
    front.measures.0 == 0 && front.beats.0 == 0 && back.measures.0 == 0 && back.beats.0 == 0
}

// The three texts behind one another, cuts aside, with one pen: nothing is counted beforehand.
pub fn play_uncut(words: &[u32], a: Arrangement, page: &mut Page)
    requires { Fine page.old.pen × (a.n ≤ 32) }
    ensures played { shown page.new
        ≡ play (row_of a.n words.now a.lead ++ (repeated_row words.now a ++ row_of a.n words.now a.tail)) (shown page.old) }
    ensures tables { SameTables page.old page.new }
{
    rounds(words, a.n, a.lead, 1, page);
    rounds(words, a.n, a.pattern, a.repeat, page);
    rounds(words, a.n, a.tail, 1, page);
}

// The same for any cuts; only a pattern that is cut is counted beforehand. Each text may be an empty stretch.
pub fn play_window(words: &[u32], a: Arrangement, page: &mut Page) -> Counts
    requires { PlaysWithin words.now a 0 × Opening page.old.pen }
    ensures played { PlaysOn (window page.old.pen.skip page.old.pen.left (arranged_row words.now a)) result page.old page.new }
    ensures tables { SameTables page.old page.new }
{
    if is_uncut(a.front, a.back) {
        play_uncut(words, a, page);
        return Counts {
            measures: page.pen.m,
            beats: page.pen.b,
        };
    }
    play_cut(words, a, page)
}

// A section, its first beat at `base`.
pub fn play_section(
    words: &[u32],
    a: Arrangement,
    base: usize,
    ms: &mut [u32],
    bs: &mut [u32],
) -> Counts
    requires { PlaysWithin words.now a base }
    ensures { Plays (arranged_row words.now a) base result ms.old bs.old ms.new bs.new }
{
    let mut page = Page {
        pen: opening(base, 0, 2097120 - base),
        measures: ms,
        beats: bs,
    };
    play_window(words, a, &mut page)
}

// A part of a section: behind `from` of its beats, as many as the table of beats holds. Its measures name their beats in that table.
pub fn play_part(
    words: &[u32],
    a: Arrangement,
    from: usize,
    ms: &mut [u32],
    bs: &mut [u32],
) -> Counts
    requires { PlaysWithin words.now a 0 × (from ≤ 2097120) }
    ensures { Plays (window from (length bs.old) (arranged_row words.now a)) 0 result
        ms.old bs.old ms.new bs.new }
{
    let mut page = Page {
        pen: opening(0, from, bs.len().min(2097120)),
        measures: ms,
        beats: bs,
    };
    play_window(words, a, &mut page)
}
