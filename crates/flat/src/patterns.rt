// The measures of a section as it plays them, a part at a time.
ghost use Rattle.player.specs.Arrangements.{arranged_row, PlaysWithin};
ghost use Rattle.flat.specs.Sheets.{Adds};
ghost use Rattle.flat.specs.Measures.{pattern_lines, Lent};

use super::measures::put_measures;
use super::sheets::put_part;
use packing::measure_of;
use player::{Arrangement, play_part};

// "a measure has a line of its own"; a section that plays nothing names the empty definition.
pub fn put_pattern(
    s: &[u8],
    words: &[u32],
    x: Arrangement,
    measures: &mut [u32],
    beats: &mut [u32],
    copy: &mut [u8],
    at: usize,
) -> usize
    requires { PlaysWithin words.now x 0 × Lent measures.old beats.old }
    ensures copy { Adds (pattern_lines s.now x.n (arranged_row words.now x)) copy.old at copy.new result }
    ensures lent { Lent measures.new beats.new }
{
    let n = x.n;
    let mut from = 0;
    let mut out = at;
    loop {
        let c = play_part(words, x, from, measures, beats);
        if c.measures == 0 {
            return put_part(b"$1\n", 0, 3, copy, out);
        }
        if c.beats < beats.len() {
            return put_measures(s, n, c.measures, measures, beats, copy, out);
        }
        let whole = c.measures - 1;
        out = put_measures(s, n, whole, measures, beats, copy, out);
        if 65536 < out {
            return out;
        }
        let next = measure_of(measures[whole]);
        from += next.first;
    }
}
