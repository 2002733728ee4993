// Slips in references: refusals 10 and 11.
ghost use Rattle.std.specs.Prelude.{◌≡◌, ◌≤◌, ◌<◌, length, get_or};
ghost use Rattle.slips.specs.Standing.{Counted};

use super::definitions::definition_lines;
use super::signs::{Token, token_from};
use super::slip::{Slip, no_slip, noted};
use super::survey::{NO_RUN, block_behind};
use refusals::Why;
use sections::{Place, Run, kind_at, next_block, read_definition, section_parts};
use settings::BlockKind;
use text::line_at;
use tokens::{CLOSES, OPENS, REFERENCE, kind, number};

// The clause of a reference that names no earlier definition (refusal 10), or one that has a reference itself (refusal 11); the other clauses of
// refusal 11: what is named has a loop and is meant in one, or has no lines.
const NONE_OR_DEEP: usize = 1;

const LOOP_IN_LOOP: usize = 2;

const MEANS_NOTHING: usize = 3;

// What is known of a definition: that there is none, or that it has a reference itself; that it has a loop, or no lines; that nothing is wrong with it.
#[derive(Clone, Copy, PartialEq, Eq)]
pub enum Known {
    Unfit,
    Loops,
    Empty,
    Fine,
}

// A number that no definition has is unfit.
pub fn known_of(known: &[Known], number: usize) -> Known
    ensures { result ≡ get_or known.now number Known.Unfit }
{
    known.get(number).copied().unwrap_or(Known::Unfit)
}

// Definitions are numbered below this.
const NUMBERS: usize = 10000;

// Where a search stands: before the first loop, behind one, in one.
#[derive(Clone, Copy, PartialEq, Eq)]
enum Loops {
    Before,
    Behind,
    Inside,
}

// A reference at fault: the clause, its place and its number.
#[derive(Clone, Copy)]
struct Fault {
    clause: usize,
    from: usize,
    to: usize,
    number: usize,
}

// The clause of a reference to a definition of which this is known.
fn clause_of(known: Known, loops: Loops) -> Option<usize> {
    match known {
        Known::Unfit => Some(NONE_OR_DEEP),
        Known::Loops if loops == Loops::Inside => Some(LOOP_IN_LOOP),
        Known::Empty => Some(MEANS_NOTHING),
        _ => None,
    }
}

// The search behind one more token.
fn search_token(known: &[Known], loops: Loops, t: Token) -> Result<Loops, Fault> {
    match kind(t.word) {
        OPENS => Ok(Loops::Inside),
        CLOSES => Ok(Loops::Behind),
        REFERENCE => {
            let number = number(t.word) as usize;
            match clause_of(known_of(known, number), loops) {
                Some(clause) => Err(Fault {
                    clause,
                    from: t.from,
                    to: t.next,
                    number,
                }),
                None => Ok(loops),
            }
        }
        _ => Ok(loops),
    }
}

// A line up to the first reference at fault.
fn search_line(
    s: &[u8],
    known: &[Known],
    before: Loops,
    from: usize,
    to: usize,
) -> Result<Loops, Fault>
    requires { (from ≤ to) × (to ≤ length s.now) × (to ≤ 65536) }
{
    let mut loops = before;
    let mut at = from;
    while let Some(t) = token_from(s, at, to) {
        loops = search_token(known, loops, t)?;
        at = t.next;
    }
    Ok(loops)
}

// The same of lines.
fn search_lines(s: &[u8], known: &[Known], run: Run) -> Result<Loops, Fault>
    requires { length s.now ≤ 65536 }
{
    let mut loops = Loops::Before;
    let mut at = run.at;
    while at < s.len() && at < run.next {
        let l = line_at(s, 0, at);
        loops = search_line(s, known, loops, l.start, l.stop)?;
        at = l.next;
    }
    Ok(loops)
}

// What is known of a definition with these lines: for refusal 10 it is enough that there is one. To its own text none is known, so that any
// reference in it is at fault.
fn trait_of(s: &[u8], run: Run, why: Why) -> Known
    requires { length s.now ≤ 65536 }
{
    if why == Why::ReferenceUndefined {
        return Known::Fine;
    }
    if run.lines == 0 {
        return Known::Empty;
    }
    match search_lines(s, &[], run) {
        Ok(Loops::Before) => Known::Fine,
        Ok(_) => Known::Loops,
        Err(_) => Known::Unfit,
    }
}

// A block: the number of the definition that it is, if it is one, and its pattern lines.
#[derive(Drop)]
struct Lines {
    number: Option<usize>,
    run: Run,
}

fn lines_at(s: &[u8], p: Place) -> Lines
    requires { Counted p × (p.at < length s.now) }
{
    match kind_at(s, p.number, p.at) {
        BlockKind::Metadata => Lines {
            number: None,
            run: NO_RUN,
        },
        BlockKind::Definition => {
            let d = read_definition(s, p.number, p.at);
            Lines {
                number: Some(d.id),
                run: d.pattern,
            }
        }
        BlockKind::Section => Lines {
            number: None,
            run: section_parts(s, p.number, p.at).pattern,
        },
    }
}

// What is known of each definition that begins before a place, by its number.
pub fn known_before(s: &[u8], at: usize, why: Why) -> [Known; 10000]
    requires { (at ≤ length s.now) × (length s.now ≤ 65536) }
{
    let mut known = [Known::Unfit; 10000];
    let mut p = next_block(s, 1, 0);
    while p.at < at {
        let lines = lines_at(s, p);
        if let Some(number) = lines.number
            && number < NUMBERS
        {
            known[number] = trait_of(s, lines.run, why);
        }
        p = block_behind(s, p);
    }
    known
}

// Refusals 10 and 11.
pub fn reference_slip(s: &[u8], p: Place, why: Why) -> Slip
    requires { Counted p × (length s.now ≤ 65536) }
{
    if s.len() <= p.at {
        return no_slip();
    }
    let known = known_before(s, p.at, why);
    let lines = lines_at(s, p);
    let Err(fault) = search_lines(s, &known, lines.run) else {
        return no_slip();
    };
    let d = definition_lines(s, fault.number);
    noted(
        fault.clause,
        fault.from,
        fault.to,
        d.number.saturating_sub(1),
        fault.number,
    )
}
