// A place in the text: bytes on one line.
ghost use Rattle.std.specs.Prelude.{◌≡◌, ◌≤◌, length};
ghost use Rattle.songcode.specs.Answer.Answer.{line_of_place};
ghost use Rattle.slips.specs.Places.{OnLine, Unended, Covers};

use text::line_of;

// The number of the line, the first byte, and how many bytes.
#[derive(Drop)]
pub struct Place {
    pub line: usize,
    pub offset: usize,
    pub length: usize,
}

// The end of the line that holds a place, or `to` where that comes first.
fn end_on_line(s: &[u8], from: usize, to: usize) -> usize
    requires { from ≤ length s.now }
    ensures lower_bound { (from ≤ result) × (result ≤ length s.now) × (line_of_place result s.now ≡ line_of_place from s.now) }
    ensures value { from ≤ to → to ≤ length s.now → Unended s.now from to → result ≡ to }
{
    for i in from..s.len() {
        if to <= i {
            return i;
        }
        if s[i] == b'\n' {
            return i;
        }
        if s[i] == b'\r' {
            return i;
        }
    }
    s.len()
}

// The bytes from one place up to another, as far as they stand on the line of the first.
pub fn place_at(s: &[u8], from: usize, to: usize) -> Place
    ensures { OnLine s.now result × Covers s.now from to result × (from ≤ length s.now → result.offset ≡ from) }
{
    let offset = from.min(s.len());
    let end = end_on_line(s, offset, to);
    Place {
        line: line_of(s, offset),
        offset,
        length: end - offset,
    }
}
