// How many measures and beats a section plays: by arithmetic where every measure of its pattern has N beats.
ghost use Rattle.std.specs.Prelude.{◌≡◌, ◌+◌, ◌*◌, ◌≤◌, length, ◌≢◌};
ghost use Rattle.songcode.specs.Description.Performance.{total};
ghost use Rattle.player.specs.Walks.{row_of};
ghost use Rattle.player.specs.Windows.{whole_of};
ghost use Rattle.player.specs.Even.{spanned};
ghost use Rattle.player.specs.Arrangements.{arranged_row, PlaysWithin};

use super::pens::Page;
use super::playing::{Arrangement, Counts, opening, planned, play_section, rounds};
use score::Stretch;

// The section is played into tables that have no room.
fn count_by_walking(words: &[u32], a: Arrangement) -> Counts
    requires { PlaysWithin words.now a 0 }
    ensures { (result.measures ≡ length (arranged_row words.now a)) × (result.beats ≡ total (arranged_row words.now a)) }
{
    play_section(words, a, 0, &mut [], &mut [])
}

// How many measures and beats a text plays by itself.
fn count_text(words: &[u32], n: usize, s: Stretch) -> Counts
    requires { (n ≤ 32) × (32 * length (row_of n words.now s) ≤ 2097120) }
    ensures measures { result.measures ≡ length (whole_of (row_of n words.now s)) }
    ensures beats { result.beats ≡ total (whole_of (row_of n words.now s)) }
    ensures bound { (result.measures ≤ result.beats) × (result.beats ≤ 2097120) }
{
    let mut page = Page {
        pen: opening(0, 0, 2097120),
        measures: &mut [],
        beats: &mut [],
    };
    rounds(words, n, s, 1, &mut page);
    Counts {
        measures: page.pen.m,
        beats: page.pen.b,
    }
}

// How many measures of n beats hold `left` beats behind the first `skip`.
#[tactic(auto, using(crate::proofs::EvenLaws::span_ways))]
fn span(n: usize, skip: usize, left: usize) -> usize
    requires { ((left ≢ 0) → 1 ≤ n) × (skip + left ≤ 4294967295) }
    ensures { (result ≡ spanned n skip left) × (result ≤ 4294967295) }
{
    if left == 0 {
        return 0;
    }
    ((skip + left - 1) / n).saturating_sub(skip / n) + 1
}

// Where every measure of the pattern has n beats, only the lead-in and the tail are walked.
fn count_even(words: &[u32], a: Arrangement) -> Counts
    requires { PlaysWithin words.now a 0 × (a.even ≢ 0) }
    ensures { (result.measures ≡ length (arranged_row words.now a)) × (result.beats ≡ total (arranged_row words.now a)) }
{
    let plan = planned(words, a);
    let lead = count_text(words, a.n, a.lead);
    let tail = count_text(words, a.n, a.tail);
    let kept = span(a.n, plan.skip, plan.left);
    Counts {
        measures: lead.measures + kept + tail.measures,
        beats: lead.beats + plan.left + tail.beats,
    }
}

pub fn count_section(words: &[u32], a: Arrangement) -> Counts
    requires { PlaysWithin words.now a 0 }
    ensures { (result.measures ≡ length (arranged_row words.now a)) × (result.beats ≡ total (arranged_row words.now a)) }
{
    if a.even == 0 {
        return count_by_walking(words, a);
    }
    count_even(words, a)
}
