// What is pending of a pattern's text, line by line.
ghost use Rattle.std.specs.Prelude.{◌≡◌, ◌+◌, ◌<◌, ◌≤◌, length};
ghost use Rattle.text.specs.Spans.{line_text};
ghost use Rattle.tokens.specs.Kept.{Keeps};
ghost use Rattle.stage2.specs.Walk.{nothing_pending, pattern_begun, pattern_more, pattern_pending};

use super::states::{Part, Pending};
use grammar::{check_kept, line_between, start};
use refusals::{NO_COMPLAINT, Why, rank};
use text::Line;

// Nothing is pending.
pub fn no_pending() -> Pending
    ensures { result ≡ nothing_pending }
{
    let check = start();
    Pending {
        want: NO_COMPLAINT,
        bare: NO_COMPLAINT,
        bad: NO_COMPLAINT,
        check,
    }
}

// The first line of a pattern's text: its number is the one that a fault of the text names.
fn first_line(s: &[u8], words: &mut [u32], q: Pending, l: Line) -> Pending
    requires { (l.start < l.stop) × (l.stop ≤ length s.now) × (l.stop ≤ 65536) × (length s.now + 16 ≤ length words.old) }
    ensures value { result ≡ pattern_begun (line_text s.now l) q }
    ensures keeps { Keeps s.now l.start l.stop words.old words.new }
{
    let check = check_kept(s, l.start, l.stop, words, start());
    let bad = rank(Why::BadPattern, l.number);
    Pending {
        want: NO_COMPLAINT,
        bare: q.bare,
        bad,
        check,
    }
}

// One more line of it.
fn next_line(s: &[u8], words: &mut [u32], q: Pending, l: Line) -> Pending
    requires { (l.start < l.stop) × (l.stop ≤ length s.now) × (l.stop ≤ 65536) × (length s.now + 16 ≤ length words.old) }
    ensures value { result ≡ pattern_more (line_text s.now l) q }
    ensures keeps { Keeps s.now l.start l.stop words.old words.new }
{
    let before = q.check;
    let check = check_kept(s, l.start, l.stop, words, line_between(before));
    Pending {
        want: q.want,
        bare: q.bare,
        bad: q.bad,
        check,
    }
}

// A pattern line; past the pattern's run it adds nothing.
pub fn pattern_pending(s: &[u8], words: &mut [u32], p: Part, q: Pending, l: Line) -> Pending
    requires { (l.start < l.stop) × (l.stop ≤ length s.now) × (l.stop ≤ 65536) × (length s.now + 16 ≤ length words.old) }
    ensures value { result ≡ pattern_pending p (line_text s.now l) q }
    ensures keeps { Keeps s.now l.start l.stop words.old words.new }
{
    match p {
        Part::Keys => first_line(s, words, q, l),
        Part::Early => first_line(s, words, q, l),
        Part::Pattern => next_line(s, words, q, l),
        Part::Behind => q,
    }
}
