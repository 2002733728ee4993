// The public calls for programs in C and Rust, each in a file of its own: `include/turnipcart.h` documents them, `rust/src/calls.rs`
// declares them.
#![tactic(auto)]

mod cause;
mod count;
mod find;
mod lights;
mod paper;
mod pitch;
mod read;
