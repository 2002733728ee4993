// The names and settings of key lines.
ghost use Rattle.std.specs.Prelude.{◌≡◌, ◌<◌, ◌≤◌, length};
ghost use Rattle.songcode.specs.Answer.Sections.{key_name_of, setting_of};
ghost use Rattle.text.specs.Spans.{line_text};
ghost use Rattle.settings.specs.Names.{key_is};
ghost use Rattle.stage2.specs.LineNotes.{key_number, allowed_in, key_note};

use refusals::{Complaint, Why, complain_if};
use settings::{KeyName, is_setting, key_named, name_end, setting_start};
use text::Line;

pub fn key_at(s: &[u8], l: Line) -> Option<KeyName>
    requires { (l.start < l.stop) × (l.stop ≤ length s.now) }
    ensures { result ≡ key_is (key_name_of (line_text s.now l)) }
{
    let a = l.start + 1;
    let q = name_end(s, a, l.stop);
    key_named(&s[a..q])
}

// The place of a key's name, 8 for an unknown one.
pub fn key_number(k: Option<KeyName>) -> usize
    ensures { result ≡ key_number k }
{
    match k {
        Some(KeyName::Name) => 0,
        Some(KeyName::Artist) => 1,
        Some(KeyName::Original) => 2,
        Some(KeyName::Capo) => 3,
        Some(KeyName::Bpm) => 4,
        Some(KeyName::Time) => 5,
        Some(KeyName::Warning) => 6,
        Some(KeyName::End) => 7,
        None => 8,
    }
}

// A section's keys are bpm and time; metadata has all eight.
fn is_allowed(section: bool, k: KeyName) -> bool
    ensures { result ≡ allowed_in section k }
{
    matches!(k, KeyName::Bpm | KeyName::Time) || !section
}

// 4 where the key is unknown or not allowed, 5 where its setting is malformed.
pub fn key_note(s: &[u8], l: Line, k: Option<KeyName>, section: bool) -> Complaint
    requires { (l.start < l.stop) × (l.stop ≤ length s.now) }
    ensures { result ≡ key_note section k (setting_of (line_text s.now l)) l.number }
{
    let Some(key) = k else {
        return complain_if(true, Why::BadKey, l.number);
    };
    let e = l.stop;
    let q = setting_start(s, l.start + 1, e);
    let allowed = is_allowed(section, key);
    let four = complain_if(!allowed, Why::BadKey, l.number);
    let good = is_setting(key, &s[q..e]);
    let five = complain_if(!good, Why::BadSetting, l.number);
    four.min(five)
}
