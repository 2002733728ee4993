// A line by its number.
ghost use Rattle.sections.specs.Numbered.{Numbered};

use text::{Line, line_at};

// The line with this number; the end of the text where there is none.
pub fn line_numbered(s: &[u8], wanted: usize) -> Line
    ensures { Numbered s.now wanted result }
{
    let mut number = 1;
    let mut at = 0;
    while at < s.len() {
        let line = line_at(s, number, at);
        if number == wanted {
            return line;
        }
        at = line.next;
        number += 1;
    }
    line_at(s, number, at)
}
