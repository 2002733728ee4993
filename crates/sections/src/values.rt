// What settings say: the time and bpm among keys; repeats, cuts, lead-in and tail among modifiers.
ghost use Rattle.std.specs.Prelude.{◌≡◌, ◌+◌, ◌≤◌, length, List};
ghost use Rattle.settings.specs.Cuts.{CutFits};
ghost use Rattle.sections.specs.Runs.{lines_of};
ghost use Rattle.sections.specs.Slots.{Inside, setting_at};
ghost use Rattle.songcode.specs.Answer.Lines.{Line};
ghost use Rattle.sections.specs.Gathering.{FirstOfEach};
ghost use Rattle.sections.specs.Values.{time_said, bpm_said, repeat_said, cut_said, KeysAre, ModifiersAre};

use super::gathering::{Gathered, gather};
use super::runs::Run;
use super::slots::Said;
use cuts::Cut;
use settings::{bpm_in, cut_in, repeat_in, time_in};

// The numbers of the settings (`key_number`, `modifier_number`).
const BPM: usize = 4;

const TIME: usize = 5;

const REPEAT: usize = 8;

const CUT_START: usize = 9;

const CUT_END: usize = 10;

const BEFORE: usize = 11;

const AFTER: usize = 12;

// A time of 0 and a bpm of 511 are none.
#[derive(Clone, Copy)]
pub struct Keys {
    pub time: usize,
    pub bpm: usize,
}

// How often, the cuts at the front and at the back, lead-in and tail. A repeat of 1 is none.
#[derive(Clone, Copy)]
pub struct Modifiers {
    pub repeat: usize,
    pub front: Option<Cut>,
    pub back: Option<Cut>,
    pub before: Option<Said>,
    pub after: Option<Said>,
}

pub fn time_said(s: &[u8], said: Option<Said>) -> usize
    requires { Inside s.now said }
    ensures { (result ≡ time_said (setting_at s.now said)) × (result ≤ 32) }
{
    match said {
        Some(x) => time_in(&s[x.start..x.stop]).unwrap_or(0),
        None => 0,
    }
}

pub fn bpm_said(s: &[u8], said: Option<Said>) -> usize
    requires { Inside s.now said }
    ensures { (result ≡ bpm_said (setting_at s.now said)) × (result ≤ 511) }
{
    match said {
        Some(x) => bpm_in(&s[x.start..x.stop]).unwrap_or(511),
        None => 511,
    }
}

fn repeat_said(s: &[u8], said: Option<Said>) -> usize
    requires { Inside s.now said }
    ensures { (result ≡ repeat_said (setting_at s.now said)) × (1 ≤ result) × (result ≤ 9999) }
{
    match said {
        Some(x) => repeat_in(&s[x.start..x.stop]).unwrap_or(1),
        None => 1,
    }
}

fn cut_said(s: &[u8], said: Option<Said>) -> Option<Cut>
    requires { Inside s.now said }
    ensures { (result ≡ cut_said (setting_at s.now said)) × CutFits result }
{
    match said {
        Some(x) => cut_in(&s[x.start..x.stop]),
        None => None,
    }
}

impl Gathered {
    // What gathered keys say.
    pub fn keys(&self, s: &[u8]) -> Keys
        requires { (ls : List Line) × FirstOfEach s.now ls self.now }
        ensures { (ls : List Line) → FirstOfEach s.now ls self.now → KeysAre ls result }
    {
        Keys {
            time: time_said(s, self.said(TIME)),
            bpm: bpm_said(s, self.said(BPM)),
        }
    }

    // What gathered modifiers say.
    fn modifiers(&self, s: &[u8]) -> Modifiers
        requires { (ls : List Line) × FirstOfEach s.now ls self.now }
        ensures { (ls : List Line) → FirstOfEach s.now ls self.now → ModifiersAre s.now ls result }
    {
        Modifiers {
            repeat: repeat_said(s, self.said(REPEAT)),
            front: cut_said(s, self.said(CUT_START)),
            back: cut_said(s, self.said(CUT_END)),
            before: self.said(BEFORE),
            after: self.said(AFTER),
        }
    }
}

// What the keys say among the lines of a run.
pub fn keys_of(s: &[u8], run: Run) -> Keys
    requires { (1 ≤ run.number) × (run.number ≤ run.at + 1) × (run.at ≤ length s.now) }
    ensures { KeysAre (lines_of s.now run) result }
{
    if run.lines == 0 {
        return Keys { time: 0, bpm: 511 };
    }
    gather(s, run).keys(s)
}

// What the modifiers say among the lines of a run.
pub fn modifiers_of(s: &[u8], run: Run) -> Modifiers
    requires { (1 ≤ run.number) × (run.number ≤ run.at + 1) × (run.at ≤ length s.now) }
    ensures { ModifiersAre s.now (lines_of s.now run) result }
{
    if run.lines == 0 {
        return Modifiers {
            repeat: 1,
            front: None,
            back: None,
            before: None,
            after: None,
        };
    }
    gather(s, run).modifiers(s)
}
