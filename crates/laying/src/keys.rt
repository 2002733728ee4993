// The words of the keys table, from the settings that are gathered of the metadata.
ghost use Rattle.std.specs.Prelude.{◌≡◌, [], ◌≤◌, length};
ghost use Rattle.std.proofs.lemmas.List.Edits.{sets};
ghost use Rattle.songcode.specs.Answer.SongText.{text_faults};
ghost use Rattle.songcode.specs.Answer.Tables.{key_words};
ghost use Rattle.songcode.specs.Answer.Answer.{input_faults, blocks_of, song_of};
ghost use Rattle.sections.specs.Slots.{Inside, setting_at};
ghost use Rattle.laying.specs.Keys.{word_of_setting, ShortSetting, SongSays};

use packing::{KEYS, key_word};
use sections::{Gathered, Said};

// The word of a key's setting; 0 where there is none.
fn key_said(s: &[u8], said: Option<Said>) -> u32
    requires { Inside s.now said × (length s.now ≤ 65536) × (input_faults s.now ≡ []) × ShortSetting (setting_at s.now said) }
    ensures { result ≡ word_of_setting (setting_at s.now said) }
{
    match said {
        Some(x) => key_word(x.start, x.stop - x.start),
        None => 0,
    }
}

// The words of all keys, from the first settings of the metadata.
pub fn lay_keys(s: &[u8], song: &Gathered, keys: &mut [u32])
    requires text { (input_faults s.now ≡ []) × (length s.now ≤ 65536) × (text_faults (blocks_of s.now) ≡ []) }
    requires rows { SongSays s.now song.now × (8 ≤ length keys.old) }
    ensures { keys.new ≡ sets keys.old 0 (key_words (song_of s.now)) }
{
    for k in 0..KEYS {
        keys[k] = key_said(s, song.said(k));
    }
}
