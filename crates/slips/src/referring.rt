// The text of a section's pattern: its own lines or, where it names a definition, that definition's, behind each reference the lines that it means.
ghost use Rattle.std.specs.Prelude.{◌≡◌, ℕ, ◌+◌, ◌≤◌, length};
ghost use Rattle.std.specs.Option.{IfSome};
ghost use Rattle.slips.specs.Misfits.{no_measure};
ghost use Rattle.slips.specs.Referring.{EntryOf, Remembers, Closed, Known, MeansRead, TokenRead, LineRead, RunRead};
ghost use Rattle.slips.specs.Readings.{ReadsPattern};

use super::definitions::definition_lines;
use super::readings::{Reading, read_plain, read_token, with_measures};
use super::signs::{Token, named_number, token_from};
use sections::Run;
use text::line_at;
use tokens::{LINE_END, REFERENCE, kind, number};

// A song has at most so many definitions.
const DEFINITIONS_MOST: usize = 26;

// A definition that a reference meant: its number, and how many measures its text has.
#[derive(Clone, Copy)]
pub struct Meant {
    pub number: usize,
    pub measures: usize,
}

// What was read, and what references meant.
#[derive(Clone, Copy)]
pub struct Referring {
    pub reading: Reading,
    pub meant: [Option<Meant>; DEFINITIONS_MOST],
}

// Before the first reference.
fn begin(reading: Reading) -> Referring
    ensures { (result.reading ≡ reading) × ((k : ℕ) → Remembers result.meant k → ⊥) }
{
    Referring {
        reading,
        meant: [None; DEFINITIONS_MOST],
    }
}

// The same definitions beside another reading.
fn with_reading(x: Referring, reading: Reading) -> Referring
    ensures { (result.reading ≡ reading) × (result.meant ≡ x.meant) }
{
    Referring { reading, ..x }
}

// The definition of a number, if a reference meant it.
fn meant_by(meant: &[Option<Meant>], number: usize) -> Option<Meant>
    ensures { IfSome result (λ m. EntryOf meant.now number m) }
{
    for entry in meant {
        if let Some(m) = entry
            && m.number == number
        {
            return Some(*m);
        }
    }
    None
}

// One more definition.
fn remember(x: Referring, new: Meant) -> Referring
    ensures { (result.reading ≡ x.reading) × ((k : ℕ) → Remembers result.meant k → (k ≡ new.number → ⊥) → Remembers x.meant k) }
{
    let Some(i) = x.meant.iter().position(|m| m.is_none()) else {
        return x;
    };
    let mut y = x;
    y.meant[i] = Some(new);
    y
}

// The lines of a definition.
fn read_definition_lines(s: &[u8], x: Referring, number: usize) -> Referring
    requires { (length s.now ≤ 65536) × Known s.now x × Closed x.reading.misfit }
    ensures { MeansRead s.now number x result }
{
    let before = x.reading;
    let y = read_plain(s, before, definition_lines(s, number));
    remember(
        with_reading(x, y),
        Meant {
            number,
            measures: y.measures.saturating_sub(before.measures),
        },
    )
}

// What a reference means: where its lines were read before, only their measures are counted.
fn read_reference(s: &[u8], x: Referring, number: usize) -> Referring
    requires { (length s.now ≤ 65536) × Known s.now x × Closed x.reading.misfit }
    ensures { MeansRead s.now number x result }
{
    match meant_by(&x.meant, number) {
        Some(m) => with_reading(x, with_measures(x.reading, m.measures)),
        None => read_definition_lines(s, x, number),
    }
}

// One more token; behind a reference the lines that it means.
fn read_or_refer(s: &[u8], x: Referring, t: Token) -> Referring
    requires { (length s.now ≤ 65536) × Known s.now x × (t.from ≤ 65536) }
    ensures { TokenRead s.now t x result }
{
    let sign = kind(t.word);
    let y = with_reading(x, read_token(x.reading, sign, t.from, t.next));
    if sign == REFERENCE {
        return read_reference(s, y, number(t.word) as usize);
    }
    y
}

// A line, and its end.
fn read_line(s: &[u8], x: Referring, from: usize, to: usize) -> Referring
    requires { (from ≤ to) × (to ≤ length s.now) × (length s.now ≤ 65536) × Known s.now x }
    ensures { LineRead s.now from to x result }
{
    let mut reading = x;
    let mut at = from;
    while let Some(t) = token_from(s, at, to) {
        reading = read_or_refer(s, reading, t);
        at = t.next;
    }
    with_reading(reading, read_token(reading.reading, LINE_END, to, to))
}

// Lines.
fn read_lines(s: &[u8], x: Referring, run: Run) -> Referring
    requires { (run.number ≤ run.at + 1) × (run.at ≤ length s.now) × (length s.now ≤ 65536) × Known s.now x }
    ensures { RunRead s.now run x result }
{
    let mut reading = x;
    let mut at = run.at;
    for i in 0..run.lines {
        if s.len() <= at {
            return reading;
        }
        let l = line_at(s, run.number + i, at);
        reading = read_line(s, reading, l.start, l.stop);
        at = l.next;
    }
    reading
}

// The pattern of a section.
pub fn read_pattern(s: &[u8], x: Reading, run: Run) -> Reading
    requires { (run.number ≤ run.at + 1) × (run.at ≤ length s.now) × (length s.now ≤ 65536) × (x.misfit ≡ no_measure) }
    ensures { ReadsPattern s.now run x result }
{
    let named = named_number(s, run);
    if named == 0 {
        return read_plain(s, x, run);
    }
    read_lines(s, begin(x), definition_lines(s, named)).reading
}
