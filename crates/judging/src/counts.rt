// A section of the row: the sum of its counts, the measures that it plays, and where the digits of its last count stand.
ghost use Rattle.std.specs.Prelude.{◌≡◌, ◌≤◌, length};
ghost use Rattle.songcode.specs.Song.{Section};
ghost use Rattle.songcode.specs.Seams.{number_written};
ghost use Rattle.songcode.specs.Answer.Answer.{song_of};
ghost use Rattle.judging.specs.Lyrics.{Inside};
ghost use Rattle.judging.specs.Counts.{later_of, later_in, count_ending, stop_in, Ends, section_counts, Summable};

use super::lyrics::tally_lyrics;
use player::{arrangement_in, count_section};
use score::{LYRIC, Lyric, Stretch, lyric_at, section_at};
use text::line_at;

// Where a count stands: its line, the byte where its digits begin, how many they are; the count. All 0 for no count.
#[derive(Drop)]
pub struct LastCount {
    pub line: usize,
    pub start: usize,
    pub digits: usize,
    pub count: usize,
}

// The sum of a section's counts, the measures that it plays, its last count.
#[derive(Drop)]
pub struct SectionCounts {
    pub sum: usize,
    pub measures: usize,
    pub last: LastCount,
}

// How many digits a count has.
fn digits_of(n: usize) -> usize
    requires { n ≤ 9999 }
    ensures { result ≡ length (number_written n) }
{
    if n < 10 {
        return 1;
    }
    if n < 100 {
        return 2;
    }
    if n < 1000 { 3 } else { 4 }
}

// Of two lines the later one if it has a count; a count of 0 is none.
fn later_of(t: Lyric, l: Lyric) -> Lyric
    ensures { result ≡ later_of t l }
{
    if l.count == 0 { t } else { l }
}

// The last line with a count, of the lyric lines of a stretch of the row; one without where there is none.
fn later_in(words: &[u32], lines: Stretch) -> Lyric
    requires { Inside words.now lines }
    ensures { result ≡ later_in words.now lines }
{
    let end = lines.to;
    let mut at = lines.from;
    let mut last = Lyric {
        offset: 0,
        length: 0,
        number: 0,
        count: 0,
        style: 0,
    };
    while at + 1 < end {
        last = later_of(last, lyric_at(words, at));
        at += LYRIC;
    }
    last
}

// Where the digits of a line's count stand: at the end of the line that holds its text.
fn count_place(s: &[u8], l: Lyric) -> LastCount
    requires { Ends s.now l }
    ensures { result ≡ count_ending l.number (stop_in s.now l) l.count }
{
    if l.count == 0 {
        return LastCount {
            line: 0,
            start: 0,
            digits: 0,
            count: 0,
        };
    }
    let line = line_at(s, l.number, l.offset);
    let digits = digits_of(l.count);
    let start = line.stop - digits;
    LastCount {
        line: l.number,
        start,
        digits,
        count: l.count,
    }
}

// The section that stands at a place of the row: of the text only the line of its last count is read.
pub fn section_counts(s: &[u8], words: &[u32], at: usize) -> SectionCounts
    requires { (x : Section) × Summable s.now words.now at x }
    ensures { (x : Section) → Summable s.now words.now at x → result ≡ section_counts (song_of s.now) x }
{
    let view = section_at(words, at);
    let played = count_section(words, arrangement_in(words, view));
    let lyrics = tally_lyrics(words, view.lyrics);
    let last = count_place(s, later_in(words, view.lyrics));
    SectionCounts {
        sum: lyrics.sum,
        measures: played.measures,
        last,
    }
}
