// Why a chart is refused, and where: the reader's verdict, the clause of it that holds, the bytes that are to change, and the numbers that a
// sentence needs.
#![tactic(auto)]

mod clauses;
mod sums;
mod times;

ghost use Rattle.std.specs.Prelude.{◌≡◌, ℕ, ◌≤◌, length};
ghost use Rattle.refusals.specs.Names.{number_of};
ghost use Rattle.slips.specs.Finds.{Finds};
ghost use Rattle.explain.specs.Times.{TimeAt};
ghost use Rattle.explain.specs.Sums.{SumsAt};
ghost use Rattle.explain.specs.Explained.{Verdict, Explains};

use clauses::cause_of;
use judging::LONG_ROW;
use reader::count_in;
use refusals::{Refusal, Why};
use slips::{Place, Slip, find_slip, place_at};
use sums::sums_at;
use times::time_at;

// Texts of more bytes are not looked into: they are refused on no line.
const TEXT_MOST: usize = 65536;

// Refusal and line, both 0 where the chart is accepted; the cause, 100 times the refusal and the number of its clause; the place, all 0 where the
// refusal names no line; one more line worth showing, 0 where there is none; three numbers.
#[derive(Drop)]
pub struct Explained {
    pub refusal: usize,
    pub line: usize,
    pub cause: usize,
    pub place: Place,
    pub other: usize,
    pub first: usize,
    pub second: usize,
    pub third: usize,
}

// A chart that is accepted, or refused on no line: nothing is to be pointed at.
fn nowhere(refusal: usize, cause: usize, first: usize) -> Explained
    ensures { (result.refusal ≡ refusal) × (result.line ≡ 0) × (result.cause ≡ cause) × (result.place.line ≡ 0) × (result.place.offset ≡ 0)
        × (result.place.length ≡ 0) }
{
    let place = Place {
        line: 0,
        offset: 0,
        length: 0,
    };
    Explained {
        refusal,
        line: 0,
        cause,
        place,
        other: 0,
        first,
        second: 0,
        third: 0,
    }
}

// A slip at its place.
fn at_place(refusal: usize, line: usize, cause: usize, x: Slip, p: Place) -> Explained
    ensures { (result.refusal ≡ refusal) × (result.line ≡ line) × (result.cause ≡ cause) × (result.place ≡ p) × (result.first ≡ x.first)
        × (result.second ≡ x.second) }
{
    Explained {
        refusal,
        line,
        cause,
        place: p,
        other: x.other,
        first: x.first,
        second: x.second,
        third: x.third,
    }
}

// N where the verdict asks for it.
fn time_for(text: &[u8], e: Refusal) -> usize
    requires { Verdict text.now e }
    ensures { number_of e.why ≡ 12 → TimeAt text.now e.line result }
{
    match e.why {
        Why::Division => time_at(text, e.line),
        Why::NoChordBefore => time_at(text, e.line),
        _ => 0,
    }
}

// A slip with the numbers of refusal 17, if it is that.
fn with_sums(text: &[u8], e: Refusal, x: Slip, words: &mut [u32]) -> Slip
    requires { Verdict text.now e × (65552 ≤ length words.old) }
    ensures { ((time : ℕ) → Finds text.now (number_of e.why) e.line time x → Finds text.now (number_of e.why) e.line time result)
        × (result.from ≡ x.from) × (result.to ≡ x.to) × (result.clause ≡ x.clause)
        × (number_of e.why ≡ 17 → SumsAt text.now e.line (record { sum = result.first; measures = result.second })) }
{
    match e.why {
        Why::CountSum => {
            let t = sums_at(text, e.line, words);
            Slip {
                first: t.sum,
                second: t.measures,
                ..x
            }
        }
        _ => x,
    }
}

// The slip of a text of any length.
fn slip_in(text: &[u8], e: Refusal, time: usize) -> Slip
    ensures { length text.now ≤ 65536 → Finds text.now (number_of e.why) e.line time result }
{
    if TEXT_MOST < text.len() {
        return slips::no_slip();
    }
    find_slip(text, usize::from(e.why), e.line, time)
}

// A chart that is refused: the row does for what is asked of it.
fn explain_refusal(text: &[u8], e: Refusal, words: &mut [u32]) -> Explained
    requires { Verdict text.now e × (65552 ≤ length words.old) }
    ensures { Explains text.now result }
{
    let number = usize::from(e.why);
    if e.line == 0 {
        let bytes = match e.why {
            Why::NoSection => 0,
            _ => text.len(),
        };
        return nowhere(number, cause_of(number, 1), bytes);
    }
    let found = slip_in(text, e, time_for(text, e));
    let x = with_sums(text, e, found, words);
    let p = place_at(text, x.from, x.to);
    at_place(number, e.line, cause_of(number, x.clause), x, p)
}

// Every text of every length is explained. One row does for the verdict and for what is asked of it.
pub fn explain(text: &[u8]) -> Explained
    ensures { Explains text.now result }
{
    let mut words = [0u32; LONG_ROW];
    match count_in(text, &mut words) {
        Ok(_) => nowhere(0, 0, text.len()),
        Err(refusal) => explain_refusal(text, refusal, &mut words),
    }
}
