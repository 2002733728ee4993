// The walk over the lines of a text.
ghost use Rattle.std.specs.Prelude.{◌≡◌, ◌+◌, ◌<◌, ◌≤◌, length};
ghost use Rattle.songcode.specs.Complaints.{earliest};
ghost use Rattle.songcode.specs.Answer.SongText.{text_faults};
ghost use Rattle.songcode.specs.Answer.Answer.{blocks_of};
ghost use Rattle.refusals.specs.Refusals.{told};
ghost use Rattle.text.specs.Spans.{line_text};
ghost use Rattle.tokens.specs.Kept.{Keeps, KeptFrom, Unmarked};
ghost use Rattle.stage2.specs.declared.states.Place.TheVariants.{Body};
ghost use Rattle.stage2.specs.States.{first_state, judged, definition_state, lyrics_state, judged_at, judge, ends};
ghost use Rattle.refusals.specs.Ranks.{none};

use super::blocks::{block_state, close_block, in_metadata, open_block};
use super::heads::{DEFINITIONS, note_head};
use super::lines::body_line;
use super::notes::none_if;
use super::patterns::{no_pending, pattern_pending};
use super::states::{Carried, Judged, Part, Pending, Place, State};
use refusals::{Complaint, NO_COMPLAINT, NO_SECTION_RANK, Refusal, Why, rank, refusal_of};
use settings::is_dashes;
use text::{Line, line_at};

// A pattern line of a definition.
fn in_definition(s: &[u8], words: &mut [u32], c: State, p: Part, l: Line) -> Judged
    requires { (l.start < l.stop) × (l.stop ≤ length s.now) × (l.stop ≤ 65536) × (length s.now + 16 ≤ length words.old) }
    ensures value { result ≡ judged none (definition_state p c (line_text s.now l)) }
    ensures keeps { Keeps s.now l.start l.stop words.old words.new }
{
    let carried = c.carried;
    let state = block_state(
        Place::Definition,
        carried,
        pattern_pending(s, words, p, c.pending, l),
    );
    Judged {
        note: NO_COMPLAINT,
        state,
    }
}

// The `--`, and a line behind it.
fn in_lyrics(c: State, bare: Complaint) -> Judged
    ensures { result ≡ judged none (lyrics_state c bare) }
{
    let carried = c.carried;
    let keys = c.keys;
    let modifiers = c.modifiers;
    let q = c.pending;
    let check = q.check;
    let pending = Pending {
        want: q.want,
        bare,
        bad: q.bad,
        check,
    };
    let state = State {
        place: Place::Lyrics,
        carried,
        keys,
        modifiers,
        pending,
    };
    Judged {
        note: NO_COMPLAINT,
        state,
    }
}

fn in_body(s: &[u8], words: &mut [u32], c: State, p: Part, l: Line) -> Judged
    requires { (l.start < l.stop) × (l.stop ≤ length s.now) × (l.stop ≤ 65536) × (length s.now + 16 ≤ length words.old) }
    ensures value { result ≡ judged_at (Body p) c (line_text s.now l) }
    ensures keeps { Keeps s.now l.start l.stop words.old words.new }
{
    let a = l.start;
    let e = l.stop;
    if is_dashes(&s[a..e]) {
        return in_lyrics(c, rank(Why::BadLine, l.number));
    }
    body_line(s, words, c, p, l)
}

// A line that is not blank, where it stands.
fn in_place(s: &[u8], words: &mut [u32], c: State, l: Line) -> Judged
    requires { (l.start < l.stop) × (l.stop ≤ length s.now) × (l.stop ≤ 65536) × (length s.now + 16 ≤ length words.old) }
    ensures value { result ≡ judged_at c.place c (line_text s.now l) }
    ensures keeps { Keeps s.now l.start l.stop words.old words.new }
{
    let place = c.place;
    match place {
        Place::Between => open_block(s, c.carried, l),
        Place::Metadata => in_metadata(s, c.carried, l),
        Place::Head => in_definition(s, words, c, Part::Keys, l),
        Place::Definition => in_definition(s, words, c, Part::Pattern, l),
        Place::Body(p) => in_body(s, words, c, p, l),
        Place::Lyrics => in_lyrics(c, NO_COMPLAINT),
    }
}

// A line: what it is complained of, and the state behind it. A blank one ends the block.
fn judge_line(s: &[u8], words: &mut [u32], c: State, l: Line) -> Judged
    requires { (l.start ≤ l.stop) × (l.stop ≤ length s.now) × (l.stop ≤ 65536) × (length s.now + 16 ≤ length words.old) }
    ensures value { result ≡ judge c (line_text s.now l) }
    ensures keeps { Keeps s.now l.start l.stop words.old words.new }
{
    if l.start < l.stop {
        return in_place(s, words, c, l);
    }
    let k = c.carried;
    let note = close_block(c);
    let state = block_state(Place::Between, k, no_pending());
    Judged { note, state }
}

// Before the first line.
fn first_state() -> State
    ensures { result ≡ first_state }
{
    let metadata = [false; 8];
    let carried = Carried {
        turn: 0,
        metadata,
        count: 0,
    };
    block_state(Place::Between, carried, no_pending())
}

// Behind the last line: the block that stands open ends, and a section is there, or 9.
fn end_text(c: State) -> Complaint
    ensures { result ≡ ends c }
{
    let k = c.carried;
    let nine = none_if(2 <= k.turn, NO_SECTION_RANK);
    let closing = close_block(c);
    closing.min(nine)
}

// Stage 2: the refusal of the complaint that goes first. The words of each pattern line are kept in the row.
pub fn stage_two(s: &[u8], words: &mut [u32]) -> Option<Refusal>
    requires { (length s.now ≤ 65536) × (length s.now + 16 ≤ length words.old) × Unmarked words.old }
    ensures value { told result ≡ earliest (text_faults (blocks_of s.now)) }
    ensures kept { KeptFrom s.now words.new 0 × (length words.new ≡ length words.old) }
{
    let mut c = first_state();
    let mut ids = [0; DEFINITIONS];
    let mut best = NO_COMPLAINT;
    let mut at = 0;
    let mut n = 1;
    while at < s.len() {
        let l = line_at(s, n, at);
        let k = c.carried;
        let j = judge_line(s, words, c, l);
        let d = j.state;
        let place = d.place;
        let six = note_head(s, &mut ids, k.count, place, l);
        best = best.min(j.note.min(six));
        c = d;
        at = l.next;
        n += 1;
    }
    let last = end_text(c);
    refusal_of(best.min(last))
}
