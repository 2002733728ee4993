// Slips in key and modifier lines: refusals 4 and 5, and those of 8 that are about modifiers.
ghost use Rattle.std.specs.Prelude.{◌+◌, ◌≤◌, ◌<◌, length};
ghost use Rattle.slips.specs.Standing.{LineIn};

use super::slip::{Slip, noted};
use super::spots::Spot;
use super::survey::NO_RUN;
use sections::{Place, Run, SLOTS, find, slot_of};
use settings::{name_end, setting_start};
use text::{Line, byte_at, line_at};

// The clauses of refusal 4.
const KEY_UNKNOWN: usize = 1;

const KEY_NOT_HERE: usize = 2;

const KEY_TWICE: usize = 3;

const KEY_LATE: usize = 4;

// The clauses of refusal 5.
const SETTING_MISSING: usize = 1;

const SETTING_WRONG: usize = 2;

// The clauses of refusal 8 about modifiers.
const MODIFIER_UNKNOWN: usize = 3;

const MODIFIER_TWICE: usize = 4;

const MODIFIER_EARLY: usize = 5;

// A section's own keys are bpm and time.
const BPM: usize = 4;

const TIME: usize = 5;

// Whether the block that begins at a place is metadata.
pub fn in_metadata(s: &[u8], p: Place) -> bool
    requires { p.at ≤ length s.now }
{
    let first = line_at(s, p.number, p.at);
    byte_at(s, first.start) == b'@'
}

// The whole line, and one more.
pub fn whole_line(clause: usize, l: Line, other: usize) -> Slip {
    noted(clause, l.start, l.stop, other, 0)
}

// The name with the sign before it, one more line, and the number of what is named.
fn name_of(clause: usize, s: &[u8], l: Line, other: usize, slot: usize) -> Slip
    requires { LineIn s.now l }
{
    noted(clause, l.start, name_end(s, l.start, l.stop), other, slot)
}

// The lines from the first of all metadata on, or from the first behind the header of the section that begins at a place.
fn lines_above(s: &[u8], p: Place, lines: usize) -> Run
    requires { (p.number ≤ p.at + 1) × (p.at ≤ length s.now) }
    ensures { (1 ≤ result.number) × (result.number ≤ result.at + 1) × (result.at ≤ length s.now) }
{
    let header = line_at(s, p.number, p.at);
    if s.len() <= p.at || in_metadata(s, p) {
        return Run { lines, ..NO_RUN };
    }
    Run {
        number: p.number + 1,
        at: header.next,
        lines,
        next: 0,
    }
}

// The first line before this one, in its section or in all metadata, that says the same.
fn earlier(s: &[u8], p: Spot, slot: usize) -> Option<usize>
    requires { (p.block.number ≤ p.block.at + 1) × (p.block.at ≤ length s.now) × (slot < 13) }
{
    let said = find(s, slot, lines_above(s, p.block, p.line.number))?;
    if said.line < p.line.number {
        Some(said.line)
    } else {
        None
    }
}

// Refusal 4.
pub fn key_slip(s: &[u8], p: Spot) -> Slip
    requires { LineIn s.now p.line × (p.block.number ≤ p.block.at + 1)
        × (p.block.at ≤ length s.now) }
{
    let slot = slot_of(s, p.line.number, p.line.start, p.line.stop);
    if SLOTS <= slot {
        return name_of(KEY_UNKNOWN, s, p.line, 0, slot);
    }
    if slot != BPM && slot != TIME && !in_metadata(s, p.block) {
        return name_of(KEY_NOT_HERE, s, p.line, p.block.number, slot);
    }
    if let Some(before) = earlier(s, p, slot) {
        return name_of(KEY_TWICE, s, p.line, before, slot);
    }
    noted(KEY_LATE, p.line.start, p.line.stop, p.block.number, slot)
}

// Refusal 5.
pub fn setting_slip(s: &[u8], l: Line) -> Slip
    requires { LineIn s.now l }
{
    let slot = slot_of(s, l.number, l.start, l.stop);
    let q = setting_start(s, l.start, l.stop);
    if q == l.stop {
        return noted(SETTING_MISSING, q, q, 0, slot);
    }
    noted(SETTING_WRONG, q, l.stop, 0, slot)
}

// Refusal 8 on a modifier line.
pub fn modifier_slip(s: &[u8], p: Spot) -> Slip
    requires { LineIn s.now p.line × (p.block.number ≤ p.block.at + 1)
        × (p.block.at ≤ length s.now) }
{
    let slot = slot_of(s, p.line.number, p.line.start, p.line.stop);
    if SLOTS <= slot {
        return name_of(MODIFIER_UNKNOWN, s, p.line, 0, 0);
    }
    if let Some(before) = earlier(s, p, slot) {
        return name_of(MODIFIER_TWICE, s, p.line, before, slot);
    }
    whole_line(MODIFIER_EARLY, p.line, p.block.number)
}
