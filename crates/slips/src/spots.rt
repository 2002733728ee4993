// A line by its number, and the block that it stands in.
ghost use Rattle.std.specs.Prelude.{◌+◌, ◌<◌, ◌≤◌, ◌≡◌, length};
ghost use Rattle.songcode.specs.Answer.Lines.{Block};
ghost use Rattle.songcode.specs.Answer.Lines as songcode;
ghost use Rattle.text.specs.declared.lines.Line.{Line};
ghost use Rattle.sections.specs.BlockParts.{block_at};
ghost use Rattle.slips.specs.Finds.{LineOf, InBlock};

use super::survey::block_of;
use sections::{Place, line_numbered};
use text::Line;

// The line, and where the first line of its block begins.
#[derive(Clone, Copy)]
pub struct Spot {
    pub line: Line,
    pub block: Place,
}

// Both.
pub fn spot_of(s: &[u8], wanted: usize) -> Spot
    ensures start_le_stop { (result.line.start ≤ result.line.stop) × (result.line.stop ≤ length s.now) × (result.line.number ≤ result.line.start + 1)
        × (1 ≤ result.line.number) }
    ensures le_number { (1 ≤ result.block.number) × (result.block.number ≤ result.block.at + 1) × (result.block.at ≤ length s.now) }
    ensures line_value { (l : Line) → LineOf s.now wanted l → result.line ≡ l }
    ensures at_in_bounds { (b : Block) (m : songcode.Line) → InBlock s.now wanted b m
        → (result.block.at < length s.now) × (block_at s.now result.block.number result.block.at ≡ b) }
{
    let line = line_numbered(s, wanted);
    let block = block_of(s, wanted);
    Spot { line, block }
}
