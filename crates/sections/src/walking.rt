// From section to section: the one that begins at a place, and where the next begins.
ghost use Rattle.std.specs.Prelude.{◌<◌, length};
ghost use Rattle.sections.specs.Onward.{Onward, Passes, Meets};

use super::blocks::{Parts, Place, SectionRead, next_block, read_parts, section_parts};

// The parts of a section, and where the next one begins; the end of the text where it was the last.
#[derive(Drop)]
pub struct Passed {
    pub section: Parts,
    pub next: Place,
}

// A section read, and where the next one begins.
#[derive(Drop)]
pub struct Met {
    pub section: SectionRead,
    pub next: Place,
}

// Past the section at a place, its settings unread.
fn pass(s: &[u8], p: Place) -> Passed
    requires { Onward s.now p × (p.at < length s.now) }
    ensures { Passes s.now p result }
{
    let section = section_parts(s, p.number, p.at);
    let last = section.lyrics;
    let next = next_block(s, last.number + last.lines, last.next);
    Passed { section, next }
}

pub fn meet(s: &[u8], p: Place) -> Met
    requires { Onward s.now p × (p.at < length s.now) }
    ensures { Meets s.now p result }
{
    let x = pass(s, p);
    Met {
        section: read_parts(s, x.section),
        next: x.next,
    }
}
