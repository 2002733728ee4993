// How many measures a text has where each of them has N beats.
ghost use Rattle.std.specs.Prelude.{◌≡◌};
ghost use Rattle.outlines.specs.Even.{even_in};

use super::readings::Outline;
use super::sizes::sizes_fit;

// The most measures that a song may have.
const MEASURES_MOST: usize = 65535;

// 0 where a measure has a remover or does not fit, and where there are too many.
#[tactic(auto, unfolding(crate::specs::Even::even_in))]
pub fn even_measures(o: Outline, n: usize) -> usize
    ensures { result ≡ even_in o n }
{
    if o.whole && sizes_fit(o.sizes, n) && o.measures <= MEASURES_MOST {
        o.measures
    } else {
        0
    }
}
