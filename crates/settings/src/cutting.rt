// Cuts as a modifier says them.
ghost use Rattle.std.specs.Prelude.{◌≡◌};
ghost use Rattle.songcode.specs.Bytes.{placed};
ghost use Rattle.songcode.specs.Answer.Modifiers.{cut_in};
ghost use Rattle.settings.specs.Cuts.{cut_is, cut_read, CutFits};

use super::parts::length_before;
use cuts::{Beats, Cut, Measures};
use tokens::number_in;

// The cut whose measures and beats are both numbers.
fn cut_of(m: Option<usize>, b: Option<usize>) -> Option<Cut>
    ensures { result ≡ cut_read m b }
{
    Some(Cut {
        measures: Measures(m?),
        beats: Beats(b?),
    })
}

// A cut is `m`, `-b` or `m-b`.
pub fn cut_in(w: &[u8]) -> Option<Cut>
    ensures { (result ≡ cut_is (cut_in (placed 0 w.now))) × CutFits result }
{
    let q = length_before(b'-', w);
    if q == w.len() {
        return cut_of(number_in(1, 9999, w), Some(0));
    }
    if q == 0 {
        return cut_of(Some(0), number_in(1, 9999, &w[1..]));
    }
    cut_of(number_in(1, 9999, &w[..q]), number_in(1, 9999, &w[q + 1..]))
}
