// Slips in the order of blocks and lines: refusals 3, 6 and 8.
ghost use Rattle.std.specs.Prelude.{◌≤◌, ◌<◌, ◌≡◌, length, get_or};
ghost use Rattle.slips.specs.Standing.{LineIn, Counted};
ghost use Rattle.slips.specs.Finds.{Without};

use super::definitions::definition_lines;
use super::keys::{in_metadata, modifier_slip, whole_line};
use super::slip::{Slip, noted};
use super::spots::Spot;
use super::survey::body_line;
use sections::{Place, section_parts};
use settings::{Kind, characters, head_in, is_dashes, kind_of};
use text::{Line, byte_at, is_tail};

// The clauses of refusal 3.
const METADATA_LATE: usize = 1;

const DEFINITION_LATE: usize = 2;

// The clauses of refusal 6.
const HEAD_MALFORMED: usize = 1;

const HEAD_TWICE: usize = 2;

const HEAD_TOO_MANY: usize = 3;

// The clauses of refusal 8 but those about modifiers.
const LINE_IN_METADATA: usize = 1;

const PATTERN_LATE: usize = 2;

const NAME_EMPTY: usize = 6;

const NAME_LONG: usize = 7;

const NO_PATTERN: usize = 8;

const DASHES_BARE: usize = 9;

// A name has at most so many characters.
const NAME_MOST: usize = 50;

// Refusal 3.
pub fn order_slip(s: &[u8], l: Line) -> Slip {
    if byte_at(s, l.start) == b'@' {
        return whole_line(METADATA_LATE, l, body_line(s, true).unwrap_or(0));
    }
    whole_line(DEFINITION_LATE, l, body_line(s, false).unwrap_or(0))
}

// Refusal 6: the number of a head that is well formed is that of its own definition or of an earlier one.
pub fn head_slip(s: &[u8], l: Line) -> Slip
    requires { LineIn s.now l }
{
    let Some(n) = head_in(&s[l.start..l.stop]) else {
        return whole_line(HEAD_MALFORMED, l, 0);
    };
    let d = definition_lines(s, n);
    if d.number <= l.number {
        return noted(HEAD_TWICE, l.start, l.stop, d.number.saturating_sub(1), n);
    }
    whole_line(HEAD_TOO_MANY, l, 0)
}

// Where a header's name ends: at its first `!`, or with the line.
pub fn name_stop(s: &[u8], from: usize, to: usize) -> usize
    requires { (from ≤ to) × (to ≤ length s.now) }
    ensures { (from ≤ result) × (result ≤ to) × Without 33 s.now from result × (result < to → get_or s.now result 0 ≡ 33) }
{
    for i in from..to {
        if s[i] == b'!' {
            return i;
        }
    }
    to
}

// Where the character behind the first n begins, or the end.
fn behind_characters(s: &[u8], from: usize, to: usize, n: usize) -> usize
    requires { (from ≤ to) × (to ≤ length s.now) }
{
    let mut left = n;
    for i in from..to {
        if !is_tail(s[i]) {
            if left == 0 {
                return i;
            }
            left -= 1;
        }
    }
    to
}

// Refusal 8 on a header.
fn header_slip(s: &[u8], l: Line) -> Slip
    requires { LineIn s.now l }
{
    let q = name_stop(s, l.start, l.stop);
    let n = characters(&s[l.start..q]);
    if n == 0 {
        return whole_line(NAME_EMPTY, l, 0);
    }
    if NAME_MOST < n {
        return noted(
            NAME_LONG,
            behind_characters(s, l.start, q, NAME_MOST),
            q,
            0,
            n,
        );
    }
    whole_line(NO_PATTERN, l, 0)
}

// The line behind the pattern of the section that begins at a place.
fn line_behind_pattern(s: &[u8], p: Place) -> usize
    requires { Counted p }
{
    if s.len() <= p.at {
        return 0;
    }
    section_parts(s, p.number, p.at).late.number
}

// Refusal 8 on a line of a section behind its header.
fn body_slip(s: &[u8], p: Spot) -> Slip
    requires { LineIn s.now p.line × Counted p.block × (p.block.at ≤ length s.now) }
{
    let w = &s[p.line.start..p.line.stop];
    if is_dashes(w) {
        return whole_line(DASHES_BARE, p.line, p.block.number);
    }
    match kind_of(w) {
        Kind::Modifier => modifier_slip(s, p),
        _ => whole_line(PATTERN_LATE, p.line, line_behind_pattern(s, p.block)),
    }
}

// Refusal 8.
pub fn line_slip(s: &[u8], p: Spot) -> Slip
    requires { LineIn s.now p.line × Counted p.block × (p.block.at ≤ length s.now) }
{
    if in_metadata(s, p.block) {
        return whole_line(LINE_IN_METADATA, p.line, p.block.number);
    }
    if p.block.number == p.line.number {
        return header_slip(s, p.line);
    }
    body_slip(s, p)
}
