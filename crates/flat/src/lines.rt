// Lines of the text, taken over into the copy.
ghost use Rattle.std.specs.Prelude.{◌≡◌, ◌+◌, ◌≤◌, length};
ghost use Rattle.sections.specs.Runs.{lines_of};
ghost use Rattle.sections.specs.BlockParts.{Placed};
ghost use Rattle.flat.specs.Sheets.{Adds};
ghost use Rattle.flat.specs.Taken.{line_bytes, is_key, keys_from, keys_left, ending_from, ending_left, Reaches};

use super::sheets::put_line;
use sections::{Place, Run, Test, run_of};
use settings::{Kind, kind_of};
use text::line_at;

// The lines of a run.
pub fn put_lines(s: &[u8], run: Run, copy: &mut [u8], at: usize) -> usize
    requires { Placed s.now run }
    ensures { Adds (line_bytes (lines_of s.now run)) copy.old at copy.new result }
{
    let mut number = run.number;
    let mut from = run.at;
    let mut out = at;
    for _ in 0..run.lines {
        if from == s.len() {
            break;
        }
        let line = line_at(s, number, from);
        out = put_line(s, line.start, line.stop, copy, out);
        number += 1;
        from = line.next;
    }
    out
}

// How far the copy has come, and the line of the text that comes next.
#[derive(Drop)]
pub struct Progress {
    pub out: usize,
    pub next: Place,
}

fn is_key(kind: Kind) -> bool
    ensures { result ≡ is_key kind }
{
    kind == Kind::Key
}

// The key lines from a line on.
pub fn put_keys(s: &[u8], number: usize, from: usize, copy: &mut [u8], at: usize) -> Progress
    requires { (1 ≤ number) × (number ≤ from + 1) × (from ≤ length s.now) }
    ensures adds { Adds (line_bytes (keys_from s.now number from)) copy.old at copy.new result.out }
    ensures reaches { Reaches s.now from (keys_left s.now number from) result.next }
{
    let mut k = number;
    let mut next = from;
    let mut out = at;
    while next < s.len() {
        let line = line_at(s, k, next);
        let a = line.start;
        let e = line.stop;
        if !is_key(kind_of(&s[a..e])) {
            break;
        }
        out = put_line(s, a, e, copy, out);
        k += 1;
        next = line.next;
    }
    Progress {
        out,
        next: Place {
            number: k,
            at: next,
        },
    }
}

// The lines of a section from its `--` on, where a line between its header and these stands at a place.
pub fn put_ending(s: &[u8], p: Place, copy: &mut [u8], at: usize) -> Progress
    requires { (1 ≤ p.number) × (p.number ≤ p.at + 1) × (p.at ≤ length s.now) }
    ensures adds { Adds (line_bytes (ending_from s.now p.number p.at)) copy.old at copy.new result.out }
    ensures reaches { Reaches s.now p.at (ending_left s.now p.number p.at) result.next }
{
    let body = run_of(s, Test::Body, p.number, p.at);
    let ending = run_of(s, Test::Full, body.number + body.lines, body.next);
    let out = put_lines(s, ending, copy, at);
    let next = Place {
        number: ending.number + ending.lines,
        at: ending.next,
    };
    Progress { out, next }
}
