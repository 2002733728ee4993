// What is wrong with the references of a definition, in one pass over its words.
ghost use Rattle.std.specs.Prelude.{◌≡◌, ◌+◌, ltb, take, drop, true, false, MatchOption};
ghost use Rattle.songcode.specs.Answer.PatternText.{loops_deep};
ghost use Rattle.outlines.specs.Faults.{too_deep, reference_read, bracket_read, faults_read, fault_told, fault_in};
ghost use Rattle.outlines.specs.Words.{vacant, look_up, is_missing};

use super::readings::Outline;
use super::signs::inner_level;
use super::words::outline_if_defined;
use refusals::Why;
use score::Stretch;
use tokens::{CLOSES, LOOPS_DEEP, OPENS, REFERENCE, kind, number};

// In how many loops the place at hand is; whether a reference was to no earlier definition; whether one may not stand there.
#[derive(Clone, Copy, Default)]
pub struct Faults {
    pub level: usize,
    pub missing: bool,
    pub deep: bool,
}

// Whether loops so deep pass the limit where they are put in at that level.
#[tactic(auto, unfolding(songcode::specs::Answer::PatternText::loops_deep))]
fn past_limit(level: usize, depth: usize) -> bool
    ensures { result ≡ ltb loops_deep (level + depth) }
{
    LOOPS_DEEP < level.saturating_add(depth)
}

// A definition that is empty or holds a reference, or whose loops pass the limit.
#[tactic(auto, unfolding(crate::specs::Faults::too_deep))]
pub fn too_deep(level: usize, o: Outline) -> bool
    ensures { result ≡ too_deep level o }
{
    o.empty || o.refers || past_limit(level, o.depth)
}

// A reference to a definition of that outline, or to none: what is not there cannot be put in either.
#[tactic(auto, unfolding(crate::specs::Faults::reference_read, crate::specs::Faults::too_deep, crate::specs::Words::vacant))]
pub fn judge_reference(o: Option<Outline>, f: Faults) -> Faults
    ensures { MatchOption o (result ≡ reference_read true vacant f) (λ x. result ≡ reference_read false x f) }
{
    match o {
        None => Faults {
            missing: true,
            deep: true,
            ..f
        },
        Some(x) => Faults {
            deep: f.deep | too_deep(f.level, x),
            ..f
        },
    }
}

// A word of kind `k` that is no reference.
#[tactic(auto, unfolding(crate::specs::Faults::bracket_read))]
pub fn pass_bracket(k: u32, f: Faults) -> Faults
    ensures { result ≡ bracket_read k f }
{
    let level = match k {
        OPENS => inner_level(f.level),
        CLOSES => f.level.saturating_sub(1),
        _ => f.level,
    };
    Faults { level, ..f }
}

#[tactic(auto, unfolding(crate::specs::Faults::faults_read, crate::specs::Words::look_up))]
pub fn judge_word(words: &[u32], f: Faults, w: u32) -> Faults
    ensures { result ≡ faults_read (is_missing words.now) (look_up words.now) f w }
{
    match kind(w) {
        REFERENCE => judge_reference(outline_if_defined(words, number(w)), f),
        k => pass_bracket(k, f),
    }
}

// What is refused of them, if anything.
pub fn fault_told(f: Faults) -> Option<Why>
    ensures { result ≡ fault_told f }
{
    if f.missing {
        return Some(Why::ReferenceUndefined);
    }
    if f.deep {
        Some(Why::ReferenceKind)
    } else {
        None
    }
}

pub fn reference_fault(words: &[u32], text: Stretch) -> Option<Why>
    ensures { result ≡ fault_in (is_missing words.now) (look_up words.now) (drop text.from (take text.to words.now)) }
{
    let mut f = Faults::default();
    for w in text.words(words) {
        f = judge_word(words, f, *w);
    }
    fault_told(f)
}
