// What a definition's text says, summed up once: for its references, its measures' sizes, its `%` and its length.
#![tactic(auto)]

mod around;
mod even;
mod faults;
mod outlining;
mod readings;
mod signs;
mod sizes;
mod words;

pub use even::even_measures;
pub use faults::reference_fault;
pub use outlining::outline_of;
pub use readings::Outline;
pub use sizes::sizes_fit;
pub use words::{is_missing, outline_for, outline_word};
