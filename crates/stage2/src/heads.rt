// The heads of definitions: their numbers stand in a row beside the state, which only a head's line reads and writes.
ghost use Rattle.std.specs.Prelude.{◌≡◌, ◌≤◌, length};
ghost use Rattle.songcode.specs.Answer.SongText.{head_in};
ghost use Rattle.text.specs.Spans.{line_text};
ghost use Rattle.tokens.specs.Decimals.{number_of};
ghost use Rattle.stage2.specs.Heads.{has_head, head_judged, with_head, is_head, head_noted, heads_after};

use super::states::Place;
use refusals::{Complaint, NO_COMPLAINT, Why, complain_if};
use settings::head_in;
use text::Line;

// "At most 26 definitions."
pub const DEFINITIONS: usize = 26;

// One of the first n numbers is x.
fn has_head(ids: &[usize], n: usize, x: usize) -> bool
    requires { n ≤ length ids.now }
    ensures { result ≡ has_head n ids.now x }
{
    ids[..n].contains(&x)
}

// 6 where the head is malformed, the 27th or later, or said before.
fn head_note(ids: &[usize], n: usize, head: Option<usize>, line: usize) -> Complaint
    requires { n ≤ length ids.now }
    ensures { result ≡ head_judged head n ids.now line }
{
    let Some(x) = head else {
        return complain_if(true, Why::BadHead, line);
    };
    let many = complain_if(DEFINITIONS <= n, Why::BadHead, line);
    many.min(complain_if(has_head(ids, n, x), Why::BadHead, line))
}

// One more definition, 0 for one whose head is malformed; past 26 none is remembered, as every further one is complained of.
fn put_head(ids: &mut [usize], n: usize, head: Option<usize>)
    requires { length ids.old ≡ 26 }
    ensures { ids.new ≡ with_head head n ids.old }
{
    if n < DEFINITIONS {
        ids[n] = head.unwrap_or(0);
    }
}

fn judge_head(s: &[u8], ids: &mut [usize], n: usize, l: Line) -> Complaint
    requires { (l.start ≤ l.stop) × (l.stop ≤ length s.now) × (n ≤ 26) × (length ids.old ≡ 26) }
    ensures { (result ≡ head_judged (number_of (head_in (line_text s.now l))) n ids.old l.number)
        × (ids.new ≡ with_head (number_of (head_in (line_text s.now l))) n ids.old) }
{
    let a = l.start;
    let e = l.stop;
    let head = head_in(&s[a..e]);
    let note = head_note(ids, n, head, l.number);
    put_head(ids, n, head);
    note
}

// Behind a definition's head.
fn is_head(place: Place) -> bool
    ensures { result ≡ is_head place }
{
    matches!(place, Place::Head)
}

// What a line is complained of as a definition's head, where n stood before it and the walk stands at this place behind it.
pub fn note_head(s: &[u8], ids: &mut [usize], n: usize, place: Place, l: Line) -> Complaint
    requires { (l.start ≤ l.stop) × (l.stop ≤ length s.now) × (n ≤ 26) × (length ids.old ≡ 26) }
    ensures { (result ≡ head_noted place n ids.old (line_text s.now l))
        × (ids.new ≡ heads_after place n ids.old (line_text s.now l)) }
{
    if is_head(place) {
        return judge_head(s, ids, n, l);
    }
    NO_COMPLAINT
}
