// The line of a place: one more than the line ends before it.
ghost use Rattle.std.specs.Prelude.{◌≡◌, ◌≤◌, length};
ghost use Rattle.songcode.specs.Answer.Answer.{line_of_place};
ghost use Rattle.text.specs.Ends.{ends_line, line_ends};

use super::byte_at;

// A line ends with byte b: LF, or a CR that no LF follows.
fn ends_line(b: u8, next: u8) -> bool
    ensures { result ≡ ends_line b next }
{
    b == b'\n' || b == b'\r' && next != b'\n'
}

// How many line ends a text holds.
fn line_ends(t: &[u8]) -> usize
    ensures { (result ≡ line_ends t.now) × (result ≤ length t.now) }
{
    let mut n = 0;
    for (i, b) in t.iter().enumerate() {
        if ends_line(*b, byte_at(t, i + 1)) {
            n += 1;
        }
    }
    n
}

// The line of a place.
pub fn line_of(s: &[u8], place: usize) -> usize
    ensures { result ≡ line_of_place place s.now }
{
    line_ends(&s[..place.min(s.len())]) + 1
}
