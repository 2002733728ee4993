// A chart and five lent tables: one refusal and nothing stored, or every word of every table.
ghost use Rattle.std.specs.Prelude.{◌≡◌, ◌+◌, ◌≤◌, length};
ghost use Rattle.tokens.specs.Kept.{Unmarked};
ghost use Rattle.reader.specs.Answers.{lent, Promised};
ghost use Rattle.reader.specs.Room.{is_short, answered_by};

use super::answers::{Answer, Room, answered};
use judging::{
    LONG_ROW, SHORT_CHART, SHORT_ROW, SMALL_CHART, SMALL_ROW, Totals, first_stages, judge,
};
use refusals::{Refusal, Why};
use writing::write_tables;

// "keys table under 8, or another table too short" for a song of these counts.
fn is_short(t: Totals, room: Room) -> bool
    ensures { result ≡ is_short t room }
{
    room.keys < 8
        || room.sections < t.sections
        || room.measures < t.measures
        || room.beats < t.beats
        || room.items < t.items
}

// All eight stages; `words` is the row that stage 2 keeps tokens in and that the chart is laid into. A text that is longer than the row is refused by stage 1.
fn stored(
    text: &[u8],
    words: &mut [u32],
    keys: &mut [u32],
    sections: &mut [u64],
    measures: &mut [u32],
    beats: &mut [u32],
    items: &mut [u64],
) -> Result<Totals, Refusal>
    requires { (length text.now ≤ 65536 → length text.now + 16 ≤ length words.old) × Unmarked words.old }
    ensures { Promised text.now
        (lent keys.old sections.old measures.old beats.old items.old) (answered_by result)
        (lent keys.new sections.new measures.new beats.new items.new) }
{
    first_stages(text, words)?;
    let chart = judge(text, words)?;
    let totals = chart.totals;
    let room = Room {
        keys: keys.len(),
        sections: sections.len(),
        measures: measures.len(),
        beats: beats.len(),
        items: items.len(),
    };
    if is_short(totals, room) {
        return Err(Refusal {
            why: Why::TableTooShort,
            line: 0,
        });
    }
    write_tables(text, chart, words, keys, sections, measures, beats, items);
    Ok(totals)
}

// With a row for a text of its size: a small one is soon cleared.
fn read_with_row<const ROW: usize>(
    text: &[u8],
    keys: &mut [u32],
    sections: &mut [u64],
    measures: &mut [u32],
    beats: &mut [u32],
    items: &mut [u64],
) -> Answer
    requires { (length text.now ≤ 65536 → length text.now + 16 ≤ ROW) × (ROW ≤ 65552) }
    ensures { Promised text.now
        (lent keys.old sections.old measures.old beats.old items.old) result
        (lent keys.new sections.new measures.new beats.new items.new) }
{
    let mut words = [0u32; ROW];
    answered(stored(text, &mut words, keys, sections, measures, beats, items))
}

// Every text of every length and every length of every table is answered. Nearly all charts have at most 2,048 bytes.
pub fn read(
    text: &[u8],
    keys: &mut [u32],
    sections: &mut [u64],
    measures: &mut [u32],
    beats: &mut [u32],
    items: &mut [u64],
) -> Answer
    ensures { Promised text.now
        (lent keys.old sections.old measures.old beats.old items.old) result
        (lent keys.new sections.new measures.new beats.new items.new) }
{
    if text.len() <= SMALL_CHART {
        return read_with_row::<SMALL_ROW>(text, keys, sections, measures, beats, items);
    }
    if text.len() <= SHORT_CHART {
        return read_with_row::<SHORT_ROW>(text, keys, sections, measures, beats, items);
    }
    read_with_row::<LONG_ROW>(text, keys, sections, measures, beats, items)
}
