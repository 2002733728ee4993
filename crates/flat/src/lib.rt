// A flat copy for paper: a song written out measure by measure as it is played, in a lent buffer.
#![tactic(auto)]

mod copying;
mod lines;
mod measures;
mod patterns;
mod sheets;
mod songs;

pub use copying::flat_copy;
