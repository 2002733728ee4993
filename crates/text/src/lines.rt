// Lines, one at a time: where a line begins and ends without its blanks, and where the next one begins.
ghost use Rattle.std.specs.Prelude.{◌≡◌, ◌+◌, ◌≤◌, max, length, drop};
ghost use Rattle.text.specs.Spans.{blank, end, ends, line_length, front_blanks, solid_length, break_length, Found, past_blank};

use super::byte_at;

// A line's number, the places of its first byte and behind its last one that is no blank, and the place of the next line.
#[derive(Clone, Copy)]
pub struct Line {
    pub number: usize,
    pub start: usize,
    pub stop: usize,
    pub next: usize,
}

// A space or a tab.
pub fn is_blank(b: u8) -> bool
    ensures { result ≡ blank b }
{
    matches!(b, b' ' | b'\t')
}

// An LF or a CR; most bytes are above both, and one test passes them.
fn is_end(b: u8) -> bool
    ensures { result ≡ ends (end b) }
{
    b <= b'\r' && matches!(b, b'\n' | b'\r')
}

// The end of the line that holds a place: its CR or LF, or the end of the text.
fn line_end(s: &[u8], at: usize) -> usize
    ensures { (result ≡ at + line_length (drop at s.now)) × (at ≤ result) × (result ≤ max at (length s.now)) }
{
    let rest = &s[at.min(s.len())..];
    at + rest.iter().position(|b| is_end(*b)).unwrap_or(rest.len())
}

// How many blanks stand in front.
pub fn front_blanks(t: &[u8]) -> usize
    ensures { (result ≡ front_blanks t.now) × (result ≤ length t.now) }
{
    t.iter().position(|b| !is_blank(*b)).unwrap_or(t.len())
}

// The length without the blanks at the end.
pub fn solid_len(t: &[u8]) -> usize
    ensures { (result ≡ solid_length t.now) × (result ≤ length t.now) }
{
    t.iter().rposition(|b| !is_blank(*b)).map_or(0, |i| i + 1)
}

// How many bytes the line end at a place has: CR LF two, CR or LF one, none 0.
fn break_len(s: &[u8], e: usize) -> usize
    ensures { (result ≡ break_length (drop e s.now)) × (e + result ≤ max e (length s.now)) }
{
    match byte_at(s, e) {
        b'\n' => 1,
        b'\r' if byte_at(s, e + 1) == b'\n' => 2,
        b'\r' => 1,
        _ => 0,
    }
}

// The line that begins at a place, as the n-th.
pub fn line_at(s: &[u8], n: usize, at: usize) -> Line
    ensures { Found s.now n at result }
{
    if s.len() <= at {
        return Line {
            number: n,
            start: at,
            stop: at,
            next: at,
        };
    }
    let e = line_end(s, at);
    let a = at + front_blanks(&s[at..e]);
    let k = solid_len(&s[a..e]);
    let w = break_len(s, e);
    Line {
        number: n,
        start: a,
        stop: a + k,
        next: e + w,
    }
}

// Where the line that begins at a place has its first byte that is no blank; its end where it has none.
pub fn line_start(s: &[u8], at: usize) -> usize
    ensures { (result ≡ at + front_blanks (drop at s.now)) × (at ≤ result) × (result ≤ max at (length s.now)) }
{
    at + front_blanks(&s[at.min(s.len())..])
}

// The place behind the blank line that begins at a place; the place itself where the line there is not blank.
pub fn past_blank(s: &[u8], at: usize) -> usize
    ensures { (result ≡ past_blank s.now at) × (at ≤ result) × (result ≤ max at (length s.now)) }
{
    let a = line_start(s, at);
    match s.get(a) {
        Some(b) if !is_end(*b) => at,
        _ => a + break_len(s, a),
    }
}
