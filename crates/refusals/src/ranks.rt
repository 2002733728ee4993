// Complaints as numbers, so that of one stage's the one that goes first is the least: the line times 32, and the refusal's number.
ghost use Rattle.std.specs.Prelude.{◌≡◌, ◌<◌, ◌%◌, ℕ, min, None};
ghost use Rattle.songcode.specs.Complaints.{complain_if};
ghost use Rattle.refusals.specs.Names.{number_of, Named, Numbered};
ghost use Rattle.refusals.specs.Refusals.{told};
ghost use Rattle.refusals.specs.Ranks.{ranked, no_section, least, refusal_at};

use super::{Refusal, Why};
use std::marker::Model;

// A complaint: its number. Below that of "no section" it has the number of what is refused.
#[derive(Clone, Copy)]
pub struct Complaint {
    number: usize,
}

impl Model for Complaint {
    ghost Value = { ℕ };

    ghost view = { λ r. r.number };

    ghost invariant = { λ r. r.number < no_section → Named (r.number % 32) };

    ghost inverse = { λ n. record { number = n } };
}

impl Complaint {
    // Of two complaints the one that goes first.
    pub fn min(self, other: Complaint) -> Complaint
        ensures { result ≡ min self other }
    {
        if self.number < other.number {
            self
        } else {
            other
        }
    }
}

// The number by itself.
impl From<Complaint> for usize {
    ghost from_gives = { λ complaint number. number ≡ complaint };

    fn from(complaint: Complaint) -> usize {
        complaint.number
    }
}

// No complaint.
pub const NO_COMPLAINT: Complaint = Complaint { number: 8388608 };

// "No section" stands behind every other complaint.
pub const NO_SECTION_RANK: Complaint = Complaint { number: NO_SECTION };

const NO_SECTION: usize = 4194313;

// Every line of a text that is judged stands before it; one further on counts as this one.
const LAST_LINE: usize = 131071;

pub fn rank(why: Why, line: usize) -> Complaint
    ensures { result ≡ ranked (number_of why) line }
{
    Complaint {
        number: line.min(LAST_LINE) * 32 + usize::from(why),
    }
}

pub fn complain_if(test: bool, why: Why, line: usize) -> Complaint
    ensures { result ≡ least (complain_if test (number_of why) line) }
{
    if test { rank(why, line) } else { NO_COMPLAINT }
}

// The refusal that a complaint's number says.
pub fn refusal_of(r: Complaint) -> Option<Refusal>
    ensures { told result ≡ refusal_at r }
{
    let number = r.number;
    if number < NO_SECTION {
        let why = Why::try_from(number % 32).ok()?;
        return Some(Refusal {
            why,
            line: number / 32,
        });
    }
    if number == NO_SECTION {
        return Some(Refusal {
            why: Why::NoSection,
            line: 0,
        });
    }
    None
}

// The same of a number by itself, for callers that hold no complaint: below "no section" one that names nothing says none.
pub fn refusal_at(r: usize) -> Option<Refusal>
    ensures numbered { (r < no_section → Numbered (r % 32)) → told result ≡ refusal_at r }
    ensures named { r < no_section → Named (r % 32) → told result ≡ refusal_at r }
    ensures nothing { r < no_section → (Named (r % 32) → ⊥) → result ≡ None }
{
    if r < NO_SECTION {
        Why::try_from(r % 32).ok()?;
    }
    refusal_of(Complaint { number: r })
}
