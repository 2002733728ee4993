// Concert pitch for horns: a beat table moved by a signed number of semitones into a second table.
#![tactic(auto)]

mod pitches;
mod tables;

pub use tables::concert_pitch;
