// Slips in measures: refusals 12 and 13.
ghost use Rattle.std.specs.Prelude.{◌≡◌, ◌≤◌, length};
ghost use Rattle.refusals.specs.declared.names.Why.TheVariants.{NoChordBefore, Division};
ghost use Rattle.slips.specs.Standing.{LineIn};
ghost use Rattle.slips.specs.MeterTold.{MeterTold, MisfitsTold};
ghost use Rattle.slips.specs.Readings.{ReadsSide, ToldStray, ToldMisfit};

use super::readings::{Reading, read_plain_line, reading_in};
use super::referring::read_pattern;
use super::slip::{Slip, at_place};
use super::survey::block_of;
use refusals::Why;
use sections::section_parts;
use settings::setting_start;
use text::Line;

// What was read, for refusal 13: the stray `%`.
fn stray_slip(x: Reading, header: usize, time: usize) -> Slip
    ensures { ToldStray x result }
{
    let found = x.stray.found();
    let from = found.unwrap_or(0);
    Slip {
        clause: usize::from(found.is_some()),
        from,
        to: from.saturating_add(1),
        other: header,
        first: 0,
        second: time,
        third: x.before.saturating_add(1),
    }
}

// For 12: the measure that does not fit.
fn misfit_slip(x: Reading, header: usize, time: usize) -> Slip
    ensures { ToldMisfit x time result }
{
    Slip {
        clause: usize::from(x.misfit.found),
        from: x.misfit.from,
        to: x.misfit.to,
        other: header,
        first: x.misfit.positions,
        second: time,
        third: x.measures,
    }
}

// For either.
fn reading_slip(x: Reading, header: usize, why: Why, time: usize) -> Slip
    ensures { (why ≡ NoChordBefore → ToldStray x result) × (why ≡ Division → ToldMisfit x time result) }
{
    if why == Why::NoChordBefore {
        stray_slip(x, header, time)
    } else {
        misfit_slip(x, header, time)
    }
}

// A lead-in or tail.
fn read_side(s: &[u8], x: Reading, l: Line) -> Reading
    requires { LineIn s.now l × (length s.now ≤ 65536) }
    ensures { ReadsSide s.now l x result }
{
    let q = setting_start(s, l.start, l.stop);
    read_plain_line(s, x, q, l.stop)
}

// Refusals 12 and 13 on the line of a number, in the block that holds it, whose N this is: on its first line of its pattern, on another one of that
// line alone.
pub fn meter_slip(s: &[u8], l: Line, line: usize, why: Why, time: usize) -> Slip
    requires { LineIn s.now l × (length s.now ≤ 65536) }
    ensures { (why ≡ NoChordBefore → MeterTold s.now line l result.clause result.from result.to)
        × (why ≡ Division → MisfitsTold s.now line l time result) }
{
    let block = block_of(s, line);
    if s.len() <= block.at {
        return at_place(0, 0, 0);
    }
    let parts = section_parts(s, block.number, block.at);
    let x = reading_in(time);
    if block.number == line {
        return reading_slip(read_pattern(s, x, parts.pattern), block.number, why, time);
    }
    reading_slip(read_side(s, x, l), block.number, why, time)
}
