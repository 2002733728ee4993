// Plays a pattern that stands as token words in a buffer into lent tables of measures and beats, in a section's N.
#![tactic(auto)]

mod again;
mod bars;
mod counting;
mod heard;
mod leaves;
mod measures;
mod pens;
mod playing;
mod seen;
mod walks;

pub use counting::count_section;
pub use pens::Pen;
pub use playing::{Arrangement, Counts, Plan, planned, play_part, play_section};
pub use seen::arrangement_in;
