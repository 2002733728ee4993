// From a refused chart to its slip: which clause of the refusal holds, which bytes are to change, and the numbers that a sentence about it needs.
#![tactic(auto)]

mod beginnings;
mod blocks;
mod counts;
mod definitions;
mod faults;
mod keys;
mod meters;
mod patterns;
mod places;
mod readings;
mod references;
mod referring;
mod signs;
mod slip;
mod spots;
mod survey;
mod texts;

pub use places::{Place, place_at};
pub use slip::{Slip, no_slip};
pub use survey::block_of;
pub use texts::find_slip;
