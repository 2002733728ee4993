// Runs of lines: as many lines from a place on as pass a test.
ghost use Rattle.std.specs.Prelude.{◌≡◌, not, ◌+◌, ◌<◌, ◌≤◌, length};
ghost use Rattle.songcode.specs.Lists.{is_empty};
ghost use Rattle.songcode.specs.Bytes.{placed};
ghost use Rattle.text.specs.Spans.{line_at, line_text};
ghost use Rattle.sections.specs.Runs as runs;
ghost use Rattle.sections.specs.Runs.{is_pattern_text, parted, Longest};

use settings::{Kind, is_dashes, kind_of};
use text::{line_at, line_start, past_blank};

// A line that is not blank; of those, one that is no `--`; of those, one of no pattern and one of a pattern.
#[derive(Clone, Copy, PartialEq, Eq)]
pub enum Test {
    Full,
    Body,
    Early,
    Pattern,
}

// The number and the place of the first line, how many lines there are, and the place of the line behind them.
#[derive(Clone, Copy)]
pub struct Run {
    pub number: usize,
    pub at: usize,
    pub lines: usize,
    pub next: usize,
}

fn is_pattern(w: &[u8]) -> bool
    ensures { result ≡ is_pattern_text (placed 0 w.now) }
{
    kind_of(w) == Kind::Pattern
}

// The line at a place is not blank.
fn is_full(s: &[u8], at: usize) -> bool
    requires { at < length s.now }
    ensures { result ≡ not (is_empty (line_text s.now (line_at s.now 0 at)).text) }
{
    past_blank(s, at) == at
}

// The line at a place is one of a pattern, or a `--`, or blank.
fn is_pattern_at(s: &[u8], at: usize) -> bool
    requires { at < length s.now }
    ensures { result ≡ is_pattern_text (line_text s.now (line_at s.now 0 at)).text }
{
    is_pattern(&s[line_start(s, at)..])
}

// What the first bytes of the line at a place say of a test.
fn opens(s: &[u8], test: Test, at: usize) -> bool
    requires { at < length s.now }
    ensures { result ≡ runs.opens test (line_text s.now (line_at s.now 0 at)).text }
{
    match test {
        Test::Full | Test::Body => is_full(s, at),
        Test::Early => !is_pattern_at(s, at),
        Test::Pattern => is_full(s, at) && is_pattern_at(s, at),
    }
}

// The line is a `--`, where that ends the run.
fn is_parted(test: Test, w: &[u8]) -> bool
    ensures { result ≡ parted test (placed 0 w.now) }
{
    match test {
        Test::Body | Test::Pattern => is_dashes(w),
        Test::Full | Test::Early => false,
    }
}

// The longest run of lines that pass a test.
pub fn run_of(s: &[u8], test: Test, number: usize, at: usize) -> Run
    requires { (number ≤ at + 1) × (at ≤ length s.now) }
    ensures { Longest s.now test number at result }
{
    let mut lines = 0;
    let mut next = at;
    while next < s.len() {
        if !opens(s, test, next) {
            break;
        }
        let line = line_at(s, number + lines, next);
        if is_parted(test, &s[line.start..line.stop]) {
            break;
        }
        lines += 1;
        next = line.next;
    }
    Run {
        number,
        at,
        lines,
        next,
    }
}
