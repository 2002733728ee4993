// Stage 5 of a section: the song's measures up to its end, and cuts that leave a beat.
ghost use Rattle.std.specs.Prelude.{◌≡◌, ◌≤◌, length, IfOk};
ghost use Rattle.songcode.specs.Lists.{times};
ghost use Rattle.settings.specs.Cuts.{CutFits};
ghost use Rattle.player.specs.Walks.{row_of};
ghost use Rattle.judging.specs.Lengths.{arrangement_of, count_of_texts, is_modified, cut_away, length_fault, EvenText, Measurable, with_lengths};

use cuts::NO_CUT;
use laying::{Texts, has_cut};
use outlines::even_measures;
use player::{Arrangement, planned};
use refusals::{Refusal, Why};
use sections::Modifiers;

// What a section plays in n: its texts, and what its modifiers say.
pub fn arrangement(n: usize, t: Texts, m: Modifiers) -> Arrangement
    ensures { result ≡ arrangement_of n t m }
{
    Arrangement {
        n,
        lead: t.lead.at,
        pattern: t.pattern.at,
        tail: t.tail.at,
        repeat: m.repeat,
        front: m.front.unwrap_or(NO_CUT),
        back: m.back.unwrap_or(NO_CUT),
        even: even_measures(t.pattern.outline, n),
    }
}

// A section's measures, lead-in and tail in, before cuts; too many where a text has more than 65,535.
fn section_count(m: Modifiers, t: Texts) -> usize
    requires { (m.repeat ≤ 9999) × (t.lead.outline.measures ≤ 65536) × (t.pattern.outline.measures ≤ 65536) × (t.tail.outline.measures ≤ 65536) }
    ensures { result ≡ count_of_texts m t }
{
    t.lead.outline.measures + m.repeat * t.pattern.outline.measures + t.tail.outline.measures
}

// Whether a section has a modifier.
fn is_modified(m: Modifiers) -> bool
    ensures { result ≡ is_modified m }
{
    m.repeat != 1 || m.before.is_some() || m.after.is_some() || has_cut(m)
}

// Whether no beat is left, or a modifier stands on an empty pattern.
fn is_cut_away(words: &[u32], n: usize, m: Modifiers, t: Texts) -> bool
    requires { (n ≤ 32) × CutFits m.front × (length (times m.repeat (row_of n words.now t.pattern.at)) ≤ 65535)
        × EvenText words.now n t.pattern }
    ensures { result ≡ cut_away words.now n m t }
{
    let outline = t.pattern.outline;
    if outline.empty {
        return is_modified(m);
    }
    if !has_cut(m) {
        return outline.measures == 0;
    }
    planned(words, arrangement(n, t, m)).left == 0
}

// The song's measures up to a section's end, where the section is played in n; or what is refused of it: more than 65,535 of them, or its cuts.
fn length_fault(
    words: &[u32],
    n: usize,
    header: usize,
    m: Modifiers,
    t: Texts,
    measures: usize,
) -> Result<usize, Refusal>
    requires { Measurable words.now n m t × (count_of_texts m t ≤ measures) }
    ensures { result ≡ length_fault words.now n header m t measures }
{
    if 65535 < measures {
        return Err(Refusal {
            why: Why::SongTooLong,
            line: header,
        });
    }
    if is_cut_away(words, n, m, t) {
        return Err(Refusal {
            why: Why::NothingLeft,
            line: header,
        });
    }
    Ok(measures)
}

// The measures of the sections so far, or what is refused of them, with one more section; where one is refused, those behind it are not asked.
pub fn with_lengths(
    words: &[u32],
    n: usize,
    header: usize,
    m: Modifiers,
    t: Texts,
    sofar: Result<usize, Refusal>,
) -> Result<usize, Refusal>
    requires { Measurable words.now n m t × IfOk sofar (λ k. k ≤ 65535) }
    ensures { result ≡ with_lengths words.now n header m t sofar }
{
    let measures = sofar? + section_count(m, t);
    length_fault(words, n, header, m, t, measures)
}
