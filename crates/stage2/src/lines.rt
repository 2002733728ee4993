// A line that is not blank, by its kind.
ghost use Rattle.std.specs.Prelude.{◌≡◌, ◌+◌, ◌<◌, ◌≤◌, length};
ghost use Rattle.songcode.specs.Answer.Sections.{kind_of_line, key_name_of};
ghost use Rattle.text.specs.Spans.{line_text};
ghost use Rattle.tokens.specs.Kept.{Keeps};
ghost use Rattle.settings.specs.Kinds.{kind_is};
ghost use Rattle.stage2.specs.States.{marked, key_of, key_judged, judged, body_judged, body_state};
ghost use Rattle.settings.specs.Names.{key_is};
ghost use Rattle.stage2.specs.LineNotes.{key_number};
ghost use Rattle.stage2.specs.BodyLines.{key_alone, on_key, on_modifier, on_pattern};

use super::marks::{again_note, put_mark};
use super::modifiers::{modifier_at, modifier_note, modifier_number};
use super::names::{key_at, key_note, key_number};
use super::parts::{
    after_key, after_modifier, after_pattern, before_pattern, past_keys, past_pattern,
};
use super::patterns::pattern_pending;
use super::states::{Judged, Part, Place, State};
use refusals::{Complaint, Why, complain_if};
use settings::{Kind, kind_of};
use text::Line;

// What a line is complained of, and the marks behind it.
#[derive(Drop)]
pub struct Noted {
    pub note: Complaint,
    pub marks: [bool; 8],
}

pub fn line_kind(s: &[u8], l: Line) -> Kind
    requires { (l.start < l.stop) × (l.stop ≤ length s.now) }
    ensures { result ≡ kind_is (kind_of_line (line_text s.now l)) }
{
    let a = l.start;
    let e = l.stop;
    kind_of(&s[a..e])
}

// A key of metadata: unknown, twice, or its setting malformed.
fn metadata_key(s: &[u8], marks: [bool; 8], l: Line) -> Noted
    requires { (l.start < l.stop) × (l.stop ≤ length s.now) }
    ensures { (result.note ≡ key_alone marks (line_text s.now l))
        × (result.marks ≡ marked (key_number (key_is (key_name_of (line_text s.now l)))) marks) }
{
    let k = key_at(s, l);
    let n = key_number(k);
    let twice = again_note(Why::BadKey, n, marks, l.number);
    let own = key_note(s, l, k, false);
    let note = twice.min(own);
    Noted {
        note,
        marks: put_mark(n, marks),
    }
}

// A line of metadata: "every line is `@key`".
pub fn metadata_line(s: &[u8], marks: [bool; 8], l: Line) -> Noted
    requires { (l.start < l.stop) × (l.stop ≤ length s.now) }
    ensures { (result.note ≡ key_judged marks (line_text s.now l)) × (result.marks ≡ marked (key_of (line_text s.now l)) marks) }
{
    let kind = line_kind(s, l);
    match kind {
        Kind::Key => metadata_key(s, marks, l),
        Kind::Modifier => Noted {
            note: complain_if(true, Why::BadLine, l.number),
            marks,
        },
        Kind::Pattern => Noted {
            note: complain_if(true, Why::BadLine, l.number),
            marks,
        },
    }
}

// A key line of a section.
pub fn key_line(s: &[u8], c: State, p: Part, l: Line) -> Judged
    requires { (l.start < l.stop) × (l.stop ≤ length s.now) }
    ensures { result ≡ on_key p c (line_text s.now l) }
{
    let k = key_at(s, l);
    let n = key_number(k);
    let out = complain_if(past_keys(p), Why::BadKey, l.number);
    let marks = c.keys;
    let twice = again_note(Why::BadKey, n, marks, l.number);
    let own = key_note(s, l, k, true);
    let note = out.min(twice).min(own);
    let keys = put_mark(n, marks);
    let modifiers = c.modifiers;
    let carried = c.carried;
    let pending = c.pending;
    let place = Place::Body(after_key(p));
    let state = State {
        place,
        carried,
        keys,
        modifiers,
        pending,
    };
    Judged { note, state }
}

// A modifier line of a section.
pub fn modifier_line(s: &[u8], c: State, p: Part, l: Line) -> Judged
    requires { (l.start < l.stop) × (l.stop ≤ length s.now) × (l.stop ≤ 65536) }
    ensures { result ≡ on_modifier p c (line_text s.now l) }
{
    let m = modifier_at(s, l);
    let n = modifier_number(m);
    let out = complain_if(before_pattern(p), Why::BadLine, l.number);
    let marks = c.modifiers;
    let twice = again_note(Why::BadLine, n, marks, l.number);
    let own = modifier_note(s, l, m);
    let note = out.min(twice).min(own);
    let modifiers = put_mark(n, marks);
    let keys = c.keys;
    let carried = c.carried;
    let pending = c.pending;
    let place = Place::Body(after_modifier(p));
    let state = State {
        place,
        carried,
        keys,
        modifiers,
        pending,
    };
    Judged { note, state }
}

// A pattern line of a section.
pub fn pattern_line(s: &[u8], words: &mut [u32], c: State, p: Part, l: Line) -> Judged
    requires { (l.start < l.stop) × (l.stop ≤ length s.now) × (l.stop ≤ 65536) × (length s.now + 16 ≤ length words.old) }
    ensures value { result ≡ on_pattern p c (line_text s.now l) }
    ensures keeps { Keeps s.now l.start l.stop words.old words.new }
{
    let note = complain_if(past_pattern(p), Why::BadLine, l.number);
    let pending = pattern_pending(s, words, p, c.pending, l);
    let keys = c.keys;
    let modifiers = c.modifiers;
    let carried = c.carried;
    let place = Place::Body(after_pattern(p));
    let state = State {
        place,
        carried,
        keys,
        modifiers,
        pending,
    };
    Judged { note, state }
}

// A line between a section's header and its `--`.
pub fn body_line(s: &[u8], words: &mut [u32], c: State, p: Part, l: Line) -> Judged
    requires { (l.start < l.stop) × (l.stop ≤ length s.now) × (l.stop ≤ 65536) × (length s.now + 16 ≤ length words.old) }
    ensures value { result ≡ judged (body_judged p c.keys c.modifiers (line_text s.now l))
        (body_state p c (line_text s.now l)) }
    ensures keeps { Keeps s.now l.start l.stop words.old words.new }
{
    let kind = line_kind(s, l);
    match kind {
        Kind::Key => key_line(s, c, p, l),
        Kind::Modifier => modifier_line(s, c, p, l),
        Kind::Pattern => pattern_line(s, words, c, p, l),
    }
}
