// The definition of a number, block by block.
ghost use Rattle.std.specs.Prelude.{◌≡◌, ◌+◌, ◌≤◌, ◌<◌, length};
ghost use Rattle.songcode.specs.Answer.Answer.{blocks_of};
ghost use Rattle.sections.specs.Runs.{lines_of};
ghost use Rattle.sections.specs.BlockParts.{block_at};
ghost use Rattle.slips.specs.Standing.{Counted};
ghost use Rattle.slips.specs.PatternText.{defines, definition_lines};

use super::survey::{NO_RUN, block_behind};
use sections::{Place, Run, kind_at, next_block, read_definition};
use settings::BlockKind;

// Whether the definition of this number begins at a place.
fn is_defined_at(s: &[u8], p: Place, number: usize) -> bool
    requires { Counted p × (p.at < length s.now) }
    ensures { result ≡ defines number (block_at s.now p.number p.at) }
{
    kind_at(s, p.number, p.at) == BlockKind::Definition
        && read_definition(s, p.number, p.at).id == number
}

// The lines of the first definition of this number, none where there is none.
pub fn definition_lines(s: &[u8], number: usize) -> Run
    ensures { (result.number ≤ result.at + 1) × (result.at ≤ length s.now)
        × (lines_of s.now result ≡ definition_lines number (blocks_of s.now)) }
{
    let mut p = next_block(s, 1, 0);
    while p.at < s.len() {
        if is_defined_at(s, p, number) {
            let d = read_definition(s, p.number, p.at);
            return d.pattern;
        }
        p = block_behind(s, p);
    }
    NO_RUN
}
