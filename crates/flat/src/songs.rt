// The blocks of a copy: the key lines, an empty definition where one is needed, and the sections.
ghost use Rattle.std.specs.Prelude.{◌≡◌, [], ◌<◌, length};
ghost use Rattle.songcode.specs.Lists.{any};
ghost use Rattle.songcode.specs.Answer.SongText.{text_faults, metadata_lines};
ghost use Rattle.songcode.specs.Answer.Playing.{time_of, played};
ghost use Rattle.songcode.specs.Answer.Flat.{empty_block, plays_nothing, flat_copy};
ghost use Rattle.songcode.specs.Answer.Answer.{input_faults, blocks_of, song_of};
ghost use Rattle.player.specs.Texts.{row_words};
ghost use Rattle.player.specs.Arrangements.{arranged_row, PlaysWithin};
ghost use Rattle.sections.specs.Onward.{Onward, section_at};
ghost use Rattle.laying.specs.Scores.{Begins};
ghost use Rattle.judging.specs.Charts.{Laid};
ghost use Rattle.flat.specs.Sheets.{Adds};
ghost use Rattle.flat.specs.Measures.{Heard, Lent};
ghost use Rattle.flat.specs.Taken.{line_bytes};
ghost use Rattle.flat.specs.Blocks.{parting, block_bytes, flat_at, flat_from, AddsBlocks, Leads};

use super::lines::{Progress, put_ending, put_keys, put_lines};
use super::patterns::put_pattern;
use super::sheets::{put, put_line, put_part};
use laying::is_empty;
use player::{Arrangement, arrangement_in};
use score::{Stretch, section_at};
use sections::{Place, Test, kind_at, next_block, run_of};
use settings::BlockKind;
use text::line_at;

// "one blank line parts blocks"
fn begin_block(copy: &mut [u8], at: usize) -> usize
    ensures { Adds (parting at) copy.old at copy.new result }
{
    if at == 0 {
        return at;
    }
    put(b'\n', copy, at)
}

// "key lines make one block": those of all metadata.
fn put_metadata(s: &[u8], copy: &mut [u8]) -> usize
    requires { text_faults (blocks_of s.now) ≡ [] }
    ensures { Adds (line_bytes (metadata_lines (blocks_of s.now))) copy.old 0 copy.new result }
{
    let mut place = next_block(s, 1, 0);
    let mut out = 0;
    while place.at < s.len() {
        match kind_at(s, place.number, place.at) {
            BlockKind::Metadata => {
                let block = run_of(s, Test::Full, place.number, place.at);
                out = put_lines(s, block, copy, out);
                place = next_block(s, place.number + block.lines, block.next);
            }
            BlockKind::Definition => {
                return out;
            }
            BlockKind::Section => {
                return out;
            }
        }
    }
    out
}

// Whether a section plays nothing.
fn has_empty(s: &[u8], words: &[u32], rows: Stretch) -> bool
    requires { Laid s.now words.now rows }
    ensures { result ≡ any (plays_nothing (song_of s.now)) (song_of s.now).sections }
{
    let end = rows.to;
    let mut row = rows.from;
    while row < end {
        let v = section_at(words, row);
        if is_empty(words, v.pattern) {
            return true;
        }
        row = v.next;
    }
    false
}

// "An empty pattern stays one, by naming an empty definition `$1` .. written only if needed".
fn put_empty(needed: bool, copy: &mut [u8], at: usize) -> usize
    ensures { AddsBlocks (empty_block needed) copy.old at copy.new result }
{
    if !needed {
        return at;
    }
    let begun = begin_block(copy, at);
    put_part(b"$1\n", 0, 3, copy, begun)
}

// A section's block: header, keys, measures as played, lyrics behind their `--`; and the place of the next block, in one walk over its lines.
fn put_section(
    s: &[u8],
    p: Place,
    words: &[u32],
    x: Arrangement,
    measures: &mut [u32],
    beats: &mut [u32],
    copy: &mut [u8],
    at: usize,
) -> Progress
    requires place { Onward s.now p × (p.at < length s.now) }
    requires meter { x.n ≡ time_of (song_of s.now) (section_at s.now p) }
    requires plays { PlaysWithin words.now x 0 }
    requires row { arranged_row words.now x ≡ row_words (played (song_of s.now) (section_at s.now p)) }
    requires heard { Heard s.now (played (song_of s.now) (section_at s.now p)) }
    requires lent { Lent measures.old beats.old }
    ensures copy { Adds (block_bytes at (flat_at s.now p)) copy.old at copy.new result.out }
    ensures next { Leads s.now p result.next }
    ensures lent { Lent measures.new beats.new }
{
    let header = line_at(s, p.number, p.at);
    let begun = begin_block(copy, at);
    let titled = put_line(s, header.start, header.stop, copy, begun);
    let keyed = put_keys(s, p.number + 1, header.next, copy, titled);
    let played = put_pattern(s, words, x, measures, beats, copy, keyed.out);
    let ended = put_ending(s, keyed.next, copy, played);
    let last = ended.next;
    let next = next_block(s, last.number, last.at);
    Progress {
        out: ended.out,
        next,
    }
}

// The blocks of all sections, one behind the other: what each plays from the row, its other lines from the text.
fn put_sections(
    s: &[u8],
    first: Place,
    words: &[u32],
    rows: Stretch,
    measures: &mut [u32],
    beats: &mut [u32],
    copy: &mut [u8],
    at: usize,
) -> usize
    requires song { (input_faults s.now ≡ []) × (text_faults (blocks_of s.now) ≡ []) × Begins s.now first × Laid s.now words.now rows }
    requires lent { Lent measures.old beats.old }
    ensures { AddsBlocks (flat_from s.now first) copy.old at copy.new result }
{
    let mut place = first;
    let mut row = rows.from;
    let mut out = at;
    while place.at < s.len() {
        let v = section_at(words, row);
        let x = arrangement_in(words, v);
        let done = put_section(s, place, words, x, measures, beats, copy, out);
        out = done.out;
        place = done.next;
        row = v.next;
    }
    out
}

// The copy of a song that nothing is wrong with, and its length; 65,537 where it has more than 65,536 bytes.
pub fn put_copy(s: &[u8], first: Place, words: &[u32], rows: Stretch, copy: &mut [u8]) -> usize
    requires { (input_faults s.now ≡ []) × (text_faults (blocks_of s.now) ≡ []) × Begins s.now first × Laid s.now words.now rows }
    ensures { Adds (flat_copy s.now) copy.old 0 copy.new result }
{
    let mut measures = [0u32; 4096];
    let mut beats = [0u32; 4096];
    let keyed = put_metadata(s, copy);
    let empty = has_empty(s, words, rows);
    let begun = put_empty(empty, copy, keyed);
    put_sections(
        s,
        first,
        words,
        rows,
        &mut measures,
        &mut beats,
        copy,
        begun,
    )
}
