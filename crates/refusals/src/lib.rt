// What a chart is refused for, by names, and which of one stage's refusals is given: the earliest.
#![tactic(auto)]

mod names;
mod ranks;

pub use names::{UnknownNumber, Why};
pub use ranks::{
    Complaint, NO_COMPLAINT, NO_SECTION_RANK, complain_if, rank, refusal_at, refusal_of,
};

// Why, and the line that it names; 0 where it names none.
#[derive(Clone, Copy, PartialEq, Eq)]
pub struct Refusal {
    pub why: Why,
    pub line: usize,
}
