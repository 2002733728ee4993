// A chart laid into the row of words: its definitions, each section behind the last one, and the words of its keys.
#![tactic(auto)]

mod definitions;
mod keys;
mod laying;
mod metadata;
mod names;
mod rows;
mod texts;

pub use definitions::{Loaded, load};
pub use keys::lay_keys;
pub use metadata::{lines_before, metadata_end};
pub use names::is_empty;
pub use rows::{has_cut, meter_of};
pub use texts::{Opened, Text, Texts, lay_section};
