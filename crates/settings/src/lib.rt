// What a line of a chart is and says: its kind, its name and its setting, its header, its cut, its count and style.
#![tactic(auto)]

mod cutting;
mod keys;
mod kinds;
mod lyrics;
mod modifiers;
mod parts;
mod phrases;

pub use cutting::cut_in;
pub use keys::{KeyName, bpm_in, is_setting, key_named, time_in};
pub use kinds::{BlockKind, Kind, block_kind, head_in, is_dashes, kind_of};
pub use lyrics::{Styled, Words, lyric_words, style_of};
pub use modifiers::{ModifierName, modifier_named, repeat_in};
pub use parts::{name_end, setting_start};
pub use phrases::{characters, header_ok};
