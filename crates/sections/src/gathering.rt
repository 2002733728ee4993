// A block's settings gathered in one pass over its lines: the first of each number.
ghost use Rattle.std.specs.Prelude.{◌≡◌, ◌+◌, ◌≤◌, ◌<◌, length};
ghost use Rattle.sections.specs.Runs.{lines_of};
ghost use Rattle.sections.specs.Gathering.{said_by, FirstOfEach};

use super::runs::Run;
use super::slots::{SLOTS, Said, said_on, slot_of};
use text::line_at;

// The first setting of each number, by its number.
#[derive(Clone, Copy)]
pub struct Gathered {
    pub first: [Option<Said>; SLOTS],
}

impl Gathered {
    // The setting of a number.
    pub fn said(&self, slot: usize) -> Option<Said>
        requires { slot < 13 }
        ensures { result ≡ said_by self.now slot }
    {
        self.first[slot]
    }
}

// The first settings among the lines of a run.
pub fn gather(s: &[u8], run: Run) -> Gathered
    requires { (1 ≤ run.number) × (run.number ≤ run.at + 1) × (run.at ≤ length s.now) }
    ensures { FirstOfEach s.now (lines_of s.now run) result }
{
    let mut first = [None; SLOTS];
    let mut n = run.number;
    let mut at = run.at;
    for _ in 0..run.lines {
        if at == s.len() {
            break;
        }
        let line = line_at(s, n, at);
        let slot = slot_of(s, n, line.start, line.stop);
        if slot < SLOTS && first[slot].is_none() {
            first[slot] = said_on(s, n, line.start, line.stop, slot);
        }
        n += 1;
        at = line.next;
    }
    Gathered { first }
}
