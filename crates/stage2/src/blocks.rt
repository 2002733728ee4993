// Where blocks begin and end.
ghost use Rattle.std.specs.Prelude.{◌≡◌, ◌<◌, ◌≤◌, max, ltb, length};
ghost use Rattle.songcode.specs.Complaints.{complain_if};
ghost use Rattle.songcode.specs.Answer.SongText.{metadata, section, kind_of_text};
ghost use Rattle.text.specs.Spans.{line_text};
ghost use Rattle.stage2.specs.States.{block_state, carried, metadata_state, head_state, key_judged, judged, opening, fine_for, closing, in_definition};
ghost use Rattle.refusals.specs.Ranks.{least};
ghost use Rattle.stage2.specs.Walk.{nothing_pending};
ghost use Rattle.stage2.specs.declared.states.Place.TheVariants.{Metadata};

use super::heads::DEFINITIONS;
use super::lines::metadata_line;
use super::notes::none_if;
use super::patterns::no_pending;
use super::states::{Carried, Judged, Part, Pending, Place, State};
use grammar::{Check, definition_fine, section_fine, start};
use refusals::{Complaint, NO_COMPLAINT, Why, complain_if, rank};
use settings::{BlockKind, block_kind, header_ok};
use text::Line;

// A block that begins, or the gap between two, with what is pending against it.
pub fn block_state(place: Place, carried: Carried, pending: Pending) -> State
    ensures { result ≡ block_state place carried pending }
{
    let keys = [false; 8];
    let modifiers = [false; 8];
    State {
        place,
        carried,
        keys,
        modifiers,
        pending,
    }
}

// Behind a line of metadata, with the marks of all of it.
fn metadata_state(k: Carried, marks: [bool; 8]) -> State
    ensures { result ≡ block_state Metadata (carried k.turn marks k.count) nothing_pending }
{
    let carried = Carried {
        turn: k.turn,
        metadata: marks,
        count: k.count,
    };
    block_state(Place::Metadata, carried, no_pending())
}

// A line of metadata.
pub fn in_metadata(s: &[u8], k: Carried, l: Line) -> Judged
    requires { (l.start < l.stop) × (l.stop ≤ length s.now) }
    ensures { result ≡ judged (key_judged k.metadata (line_text s.now l)) (metadata_state k (line_text s.now l)) }
{
    let marks = k.metadata;
    let noted = metadata_line(s, marks, l);
    let metadata = noted.marks;
    let state = metadata_state(k, metadata);
    Judged {
        note: noted.note,
        state,
    }
}

fn open_metadata(s: &[u8], k: Carried, l: Line) -> Judged
    requires { (l.start < l.stop) × (l.stop ≤ length s.now) }
    ensures { result ≡ opening metadata k (line_text s.now l) }
{
    let late = complain_if(0 < k.turn, Why::BlockOrder, l.number);
    let marks = k.metadata;
    let noted = metadata_line(s, marks, l);
    let note = late.min(noted.note);
    let metadata = noted.marks;
    let state = metadata_state(k, metadata);
    Judged { note, state }
}

// A definition's head: what its number is complained of is judged beside the state.
fn open_definition(k: Carried, l: Line) -> Judged
    ensures { result ≡ judged (least (complain_if (ltb 1 k.turn) 3 l.number)) (head_state (max k.turn 1) k) }
{
    let note = complain_if(1 < k.turn, Why::BlockOrder, l.number);
    let turn = k.turn.max(1);
    let metadata = k.metadata;
    let count = k.count.min(DEFINITIONS - 1) + 1;
    let carried = Carried {
        turn,
        metadata,
        count,
    };
    let state = block_state(Place::Head, carried, no_pending());
    Judged { note, state }
}

// A section's header: that it has no pattern line is pending.
fn open_section(s: &[u8], k: Carried, l: Line) -> Judged
    requires { (l.start < l.stop) × (l.stop ≤ length s.now) }
    ensures { result ≡ opening section k (line_text s.now l) }
{
    let late = complain_if(2 < k.turn, Why::BlockOrder, l.number);
    let a = l.start;
    let e = l.stop;
    let good = header_ok(&s[a..e]);
    let eight = complain_if(!good, Why::BadLine, l.number);
    let note = late.min(eight);
    let turn = k.turn.max(2);
    let metadata = k.metadata;
    let carried = Carried {
        turn,
        metadata,
        count: k.count,
    };
    let want = rank(Why::BadLine, l.number);
    let check = start();
    let pending = Pending {
        want,
        bare: NO_COMPLAINT,
        bad: NO_COMPLAINT,
        check,
    };
    let state = block_state(Place::Body(Part::Keys), carried, pending);
    Judged { note, state }
}

// The first line of a block.
pub fn open_block(s: &[u8], k: Carried, l: Line) -> Judged
    requires { (l.start < l.stop) × (l.stop ≤ length s.now) }
    ensures { result ≡ opening (kind_of_text (line_text s.now l).text) k (line_text s.now l) }
{
    let a = l.start;
    let e = l.stop;
    let kind = block_kind(&s[a..e]);
    match kind {
        BlockKind::Metadata => open_metadata(s, k, l),
        BlockKind::Definition => open_definition(k, l),
        BlockKind::Section => open_section(s, k, l),
    }
}

// In a definition, its head behind.
fn in_definition(place: Place) -> bool
    ensures { result ≡ in_definition place }
{
    matches!(place, Place::Head | Place::Definition)
}

// Whether the text that ends with a block is right there.
fn fine_for(place: Place, check: Check) -> bool
    ensures { result ≡ fine_for place check }
{
    if in_definition(place) {
        return definition_fine(check);
    }
    section_fine(check)
}

// What is pending against the block that ends here.
pub fn close_block(c: State) -> Complaint
    ensures { result ≡ closing c }
{
    let place = c.place;
    let q = c.pending;
    let check = q.check;
    let fine = fine_for(place, check);
    let seven = none_if(fine, q.bad);
    q.want.min(q.bare.min(seven))
}
