// Stages 4 and 5 from section to section: what each of them refuses first.
ghost use Rattle.std.specs.Prelude.{◌≡◌, ◌≤◌, IfOk};
ghost use Rattle.refusals.specs.Refusals.{told};
ghost use Rattle.judging.specs.Lengths.{Measurable};
ghost use Rattle.judging.specs.Measures.{with_measures, metered_refusal};

use super::lengths::with_lengths;
use super::meters::meter_fault;
use laying::Opened;
use refusals::{Complaint, Refusal, refusal_of};

// What stage 4 complains of first in the sections so far; and their measures, or what stage 5 refuses of them.
#[derive(Clone, Copy)]
pub struct Metered {
    pub meters: Complaint,
    pub lengths: Result<usize, Refusal>,
}

// With one more section, played in n.
pub fn with_measures(words: &[u32], n: usize, x: Opened, y: Metered) -> Metered
    requires { Measurable words.now n x.section.modifiers x.texts × IfOk y.lengths (λ k. k ≤ 65535) }
    ensures { result ≡ with_measures words.now n x y }
{
    let header = x.section.header;
    let modifiers = x.section.modifiers;
    Metered {
        meters: y.meters.min(meter_fault(header, modifiers, x.texts, n)),
        lengths: with_lengths(words, n, header, modifiers, x.texts, y.lengths),
    }
}

// What is refused of the sections so far: stage 4 goes before stage 5.
pub fn metered_refusal(x: &Metered) -> Option<Refusal>
    ensures { told result ≡ metered_refusal x.now }
{
    refusal_of(x.meters).or(x.lengths.err())
}
