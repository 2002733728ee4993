// The names and settings of modifier lines.
ghost use Rattle.std.specs.Prelude.{◌≡◌, ◌<◌, ◌≤◌, length};
ghost use Rattle.songcode.specs.Answer.Sections.{modifier_name_of, setting_of};
ghost use Rattle.text.specs.Spans.{line_text};
ghost use Rattle.refusals.specs.Names.{number_of};
ghost use Rattle.settings.specs.Names.{modifier_is};
ghost use Rattle.stage2.specs.LineNotes.{modifier_number, setting_fine, setting_number, modifier_note};

use grammar::side_fine;
use refusals::{Complaint, Why, complain_if};
use settings::{ModifierName, cut_in, modifier_named, name_end, repeat_in, setting_start};
use text::Line;

pub fn modifier_at(s: &[u8], l: Line) -> Option<ModifierName>
    requires { (l.start < l.stop) × (l.stop ≤ length s.now) }
    ensures { result ≡ modifier_is (modifier_name_of (line_text s.now l)) }
{
    let a = l.start + 1;
    let q = name_end(s, a, l.stop);
    modifier_named(&s[a..q])
}

// The place of a modifier's name, 8 for an unknown one.
pub fn modifier_number(m: Option<ModifierName>) -> usize
    ensures { result ≡ modifier_number m }
{
    match m {
        Some(ModifierName::Repeat) => 0,
        Some(ModifierName::CutStart) => 1,
        Some(ModifierName::CutEnd) => 2,
        Some(ModifierName::Before) => 3,
        Some(ModifierName::After) => 4,
        None => 8,
    }
}

// What is given where a modifier's setting is malformed.
pub fn setting_why(m: ModifierName) -> Why
    ensures { number_of result ≡ setting_number m }
{
    match m {
        ModifierName::Repeat | ModifierName::CutStart | ModifierName::CutEnd => Why::BadSetting,
        ModifierName::Before | ModifierName::After => Why::BadPattern,
    }
}

// The setting of a modifier.
fn setting_fine(s: &[u8], l: Line, m: ModifierName) -> bool
    requires { (l.start < l.stop) × (l.stop ≤ length s.now) × (l.stop ≤ 65536) }
    ensures { result ≡ setting_fine m (setting_of (line_text s.now l)) }
{
    let e = l.stop;
    let q = setting_start(s, l.start + 1, e);
    let setting = &s[q..e];
    match m {
        ModifierName::Repeat => repeat_in(setting).is_some(),
        ModifierName::CutStart | ModifierName::CutEnd => cut_in(setting).is_some(),
        ModifierName::Before | ModifierName::After => side_fine(s, q, e),
    }
}

// 8 where the modifier is unknown; 5, of a lead-in or tail 7, where its setting is malformed.
pub fn modifier_note(s: &[u8], l: Line, m: Option<ModifierName>) -> Complaint
    requires { (l.start < l.stop) × (l.stop ≤ length s.now) × (l.stop ≤ 65536) }
    ensures { result ≡ modifier_note m (setting_of (line_text s.now l)) l.number }
{
    let Some(name) = m else {
        return complain_if(true, Why::BadLine, l.number);
    };
    let fine = setting_fine(s, l, name);
    complain_if(!fine, setting_why(name), l.number)
}
