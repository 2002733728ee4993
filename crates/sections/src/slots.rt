// Settings: the first line among some that says one, and the places of its text.
ghost use Rattle.std.specs.Prelude.{◌≡◌, ◌+◌, ◌-◌, ◌*◌, ◌≤◌, ◌<◌, length};
ghost use Rattle.settings.proofs.OfLineLaws.{line_from};
ghost use Rattle.sections.specs.Runs.{lines_of};
ghost use Rattle.sections.specs.Slots.{slot_of, key_number, modifier_number, Inside, SaysLine, setting_among, setting_at};

use super::runs::Run;
use settings::{
    KeyName, Kind, ModifierName, key_named, kind_of, modifier_named, name_end, setting_start,
};
use text::line_at;

// Eight keys and five modifiers have a number each.
pub const SLOTS: usize = 13;

// A setting's line, and the places of its first byte and behind its last.
#[derive(Clone, Copy)]
pub struct Said {
    pub line: usize,
    pub start: usize,
    pub stop: usize,
}

// Keys have the numbers of their places in the answer, modifiers those behind them.
pub fn key_number(k: KeyName) -> usize
    ensures { result ≡ key_number k }
{
    match k {
        KeyName::Name => 0,
        KeyName::Artist => 1,
        KeyName::Original => 2,
        KeyName::Capo => 3,
        KeyName::Bpm => 4,
        KeyName::Time => 5,
        KeyName::Warning => 6,
        KeyName::End => 7,
    }
}

pub fn modifier_number(m: ModifierName) -> usize
    ensures { result ≡ modifier_number m }
{
    match m {
        ModifierName::Repeat => 8,
        ModifierName::CutStart => 9,
        ModifierName::CutEnd => 10,
        ModifierName::Before => 11,
        ModifierName::After => 12,
    }
}

// The number of the setting that a line says; 13 is none.
pub fn slot_of(s: &[u8], n: usize, a: usize, e: usize) -> usize
    requires { (a ≤ e) × (e ≤ length s.now) }
    ensures { (result ≡ slot_of (line_from n s.now a e)) × (13 ≤ result + 13 * (e - a)) }
{
    if a == e {
        return 13;
    }
    let q = name_end(s, a + 1, e);
    match kind_of(&s[a..e]) {
        Kind::Key => key_named(&s[a + 1..q]).map_or(SLOTS, key_number),
        Kind::Modifier => modifier_named(&s[a + 1..q]).map_or(SLOTS, modifier_number),
        Kind::Pattern => 13,
    }
}

// The setting that a line says whose number is `slot`; none where the number is 13.
pub fn said_on(s: &[u8], n: usize, a: usize, e: usize, slot: usize) -> Option<Said>
    requires { (a ≤ e) × (e ≤ length s.now) × (1 ≤ n) × (13 ≤ slot + 13 * (e - a)) }
    ensures { SaysLine s.now slot (line_from n s.now a e) result }
{
    if SLOTS <= slot {
        return None;
    }
    Some(Said {
        line: n,
        start: setting_start(s, a + 1, e),
        stop: e,
    })
}

// The first setting of a number among the lines of a run.
pub fn find(s: &[u8], slot: usize, run: Run) -> Option<Said>
    requires { (1 ≤ run.number) × (run.number ≤ run.at + 1) × (run.at ≤ length s.now) × (slot < 13) }
    ensures { (setting_at s.now result ≡ setting_among slot (lines_of s.now run)) × Inside s.now result }
{
    let mut n = run.number;
    let mut at = run.at;
    for _ in 0..run.lines {
        if at == s.len() {
            break;
        }
        let line = line_at(s, n, at);
        if slot_of(s, n, line.start, line.stop) == slot {
            return said_on(s, n, line.start, line.stop, slot);
        }
        n += 1;
        at = line.next;
    }
    None
}
