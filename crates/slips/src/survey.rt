// The blocks of a chart, one behind the other.
ghost use Rattle.std.specs.Prelude.{◌+◌, ◌≤◌, ◌<◌, length};
ghost use Rattle.slips.specs.Standing.{Counted};
ghost use Rattle.slips.specs.BlocksMet.{Behind, BlockOf};

use sections::{Place, Run, Test, kind_at, next_block, run_of};
use settings::BlockKind;
use text::line_at;

// Behind the block that begins at a place: the next one, or the end of the text.
pub fn block_behind(s: &[u8], p: Place) -> Place
    requires { Counted p × (p.at < length s.now) }
    ensures { (1 ≤ result.number) × (result.number ≤ result.at + 1) × (p.at < result.at) × (result.at ≤ length s.now)
        × Behind s.now p result }
{
    let first = line_at(s, p.number, p.at);
    let rest = run_of(s, Test::Full, p.number + 1, first.next);
    next_block(s, rest.number + rest.lines, rest.next)
}

// The block that holds the line of this number: the last one that begins on this line or before it.
pub fn block_of(s: &[u8], wanted: usize) -> Place
    ensures { BlockOf s.now wanted result }
{
    let mut p = next_block(s, 1, 0);
    while p.at < s.len() {
        let q = block_behind(s, p);
        if s.len() <= q.at {
            return p;
        }
        if wanted < q.number {
            return p;
        }
        p = q;
    }
    p
}

// Whether a block is a section or, where definitions count too, no metadata.
fn is_body(kind: BlockKind, definitions: bool) -> bool {
    kind == BlockKind::Section || definitions && kind == BlockKind::Definition
}

// The first line of the first such block.
pub fn body_line(s: &[u8], definitions: bool) -> Option<usize> {
    let mut p = next_block(s, 1, 0);
    while p.at < s.len() {
        if is_body(kind_at(s, p.number, p.at), definitions) {
            return Some(p.number);
        }
        p = block_behind(s, p);
    }
    None
}

// No line.
pub const NO_RUN: Run = Run {
    number: 1,
    at: 0,
    lines: 0,
    next: 0,
};
