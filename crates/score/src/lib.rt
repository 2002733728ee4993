// The row of words in which a chart stands: its texts as stretches, its definitions by number.
#![tactic(auto)]

mod definitions;
mod lyrics;
mod stretches;
mod views;

pub use definitions::{HEADS, entry_at, head_word, length_at, place_of, played_text, stretch_of};
pub use lyrics::{Lyric, lyric_at};
pub use stretches::{Stretch, word_at};
pub use views::{LYRIC, SECTION_HEADS, View, section_at};
