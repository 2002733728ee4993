// Stage 2 of the reading, line by line.
#![tactic(auto)]

mod blocks;
mod heads;
mod lines;
mod marks;
mod modifiers;
mod names;
mod notes;
mod parts;
mod patterns;
mod states;
mod walk;

pub use lines::Noted;
pub use states::{Carried, Judged, Part, Pending, Place, State};
pub use walk::stage_two;
