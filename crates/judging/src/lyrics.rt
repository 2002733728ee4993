// Stage 6: if one of the lyric lines taken has a count, all have.
ghost use Rattle.std.specs.Prelude.{◌≡◌, ◌+◌, ◌≤◌, ◌<◌, ◌*◌};
ghost use Rattle.judging.specs.Lyrics.{first_line, with_line, Inside, tally_in, taken_with, count_fault};

use refusals::{Refusal, Why};
use score::{LYRIC, Stretch, lyric_at};

// Of some lyric lines: how many they are, the sum of their counts, whether one has a count, and the least number of a line that has none, 0 if all have.
#[derive(Clone, Copy)]
pub struct Tally {
    pub lines: usize,
    pub sum: usize,
    pub counted: bool,
    pub bare: usize,
}

// The least of two line numbers, where 0 is none.
fn first_line(a: usize, b: usize) -> usize
    ensures { result ≡ first_line a b }
{
    if a == 0 {
        return b;
    }
    if b == 0 { a } else { a.min(b) }
}

// With one more line; a count of 0 is none.
fn with_line(t: Tally, number: usize, count: usize) -> Tally
    requires { (t.lines ≤ 1000000) × (t.sum ≤ 16383 * 1000000) × (count ≤ 16383) }
    ensures { result ≡ with_line t number count }
{
    if count != 0 {
        return Tally {
            lines: t.lines + 1,
            sum: t.sum + count,
            counted: true,
            ..t
        };
    }
    Tally {
        lines: t.lines + 1,
        bare: first_line(t.bare, number),
        ..t
    }
}

// The lyric lines of a stretch of the row, two words a line.
pub fn tally_lyrics(words: &[u32], lines: Stretch) -> Tally
    requires { Inside words.now lines }
    ensures { result ≡ tally_in words.now lines }
{
    let end = lines.to;
    let mut at = lines.from;
    let mut t = Tally {
        lines: 0,
        sum: 0,
        counted: false,
        bare: 0,
    };
    while at + 1 < end {
        let line = lyric_at(words, at);
        t = with_line(t, line.number, line.count);
        at += LYRIC;
    }
    t
}

// Of the lyric lines taken so far: whether one has a count, and the least number of a line that has none, 0 if all have.
#[derive(Clone, Copy)]
pub struct Taken {
    pub counted: bool,
    pub bare: usize,
}

// "Take the lyric lines of all sections whose pattern isn't empty": with those of one more section.
pub fn taken_with(empty: bool, y: Taken, t: Tally) -> Taken
    ensures { result ≡ taken_with empty y t }
{
    if empty {
        return y;
    }
    Taken {
        counted: y.counted || t.counted,
        bare: first_line(y.bare, t.bare),
    }
}

// What stage 6 refuses.
pub fn count_fault(y: Taken) -> Option<Refusal>
    ensures { result ≡ count_fault y }
{
    if y.counted && y.bare != 0 {
        return Some(Refusal {
            why: Why::CountMissing,
            line: y.bare,
        });
    }
    None
}
