// Blocks: the parts of a section and of a definition, and where the next block begins.
ghost use Rattle.std.specs.Prelude.{◌≡◌, ◌+◌, ◌≤◌, ◌<◌, length};
ghost use Rattle.songcode.specs.Answer.SongText.{block_kind};
ghost use Rattle.settings.specs.Kinds.{block_kind_is};
ghost use Rattle.sections.specs.BlockParts.{block_at, Placed, NextAt, LyricsAt, PartsAt, PartsRead, DefinitionAt};

use super::runs::{Run, Test, run_of};
use super::values::{Keys, Modifiers, keys_of, modifiers_of};
use settings::{BlockKind, block_kind, head_in};
use text::{line_at, line_start, past_blank};

// A line's number and place.
#[derive(Clone, Copy)]
pub struct Place {
    pub number: usize,
    pub at: usize,
}

// The number of a section's header, and the lines before its pattern, of its pattern, behind it, and of its lyrics; the next block stands
// behind these.
#[derive(Drop)]
pub struct Parts {
    pub header: usize,
    pub early: Run,
    pub pattern: Run,
    pub late: Run,
    pub lyrics: Run,
}

// What a section says: the number of its header, its keys and modifiers, and the lines of its pattern and lyrics.
#[derive(Clone, Copy)]
pub struct SectionRead {
    pub header: usize,
    pub keys: Keys,
    pub modifiers: Modifiers,
    pub pattern: Run,
    pub lyrics: Run,
}

// What a definition says: the number of its head's line, its own number (0 where it has none), and the lines of its pattern.
#[derive(Drop)]
pub struct DefinitionRead {
    pub head: usize,
    pub id: usize,
    pub pattern: Run,
}

// Where the next block begins, from a line on; the end of the text where there is none.
pub fn next_block(s: &[u8], number: usize, at: usize) -> Place
    requires { (1 ≤ number) × (number ≤ at + 1) × (at ≤ length s.now) }
    ensures { NextAt s.now number at result }
{
    let mut lines = 0;
    let mut next = at;
    while next < s.len() {
        let behind = past_blank(s, next);
        if behind == next {
            break;
        }
        lines += 1;
        next = behind;
    }
    Place {
        number: number + lines,
        at: next,
    }
}

// The kind of the block whose first line begins at a place.
pub fn kind_at(s: &[u8], number: usize, at: usize) -> BlockKind
    requires { at ≤ length s.now }
    ensures { result ≡ block_kind_is (block_kind (block_at s.now number at)) }
{
    block_kind(&s[line_start(s, at)..])
}

// The lyric lines of a block, from its `--` on.
fn lyrics_from(s: &[u8], number: usize, at: usize) -> Run
    requires { (1 ≤ number) × (number ≤ at + 1) × (at ≤ length s.now) }
    ensures { LyricsAt s.now number at result }
{
    let rest = run_of(s, Test::Full, number, at);
    if rest.lines == 0 {
        return rest;
    }
    let dashes = line_at(s, number, at);
    Run {
        number: number + 1,
        at: dashes.next,
        lines: rest.lines - 1,
        next: rest.next,
    }
}

// The parts of the section whose header begins at a place.
pub fn section_parts(s: &[u8], number: usize, at: usize) -> Parts
    requires { (1 ≤ number) × (number ≤ at + 1) × (at < length s.now) }
    ensures { PartsAt s.now number at result }
{
    let header = line_at(s, number, at);
    let early = run_of(s, Test::Early, number + 1, header.next);
    let pattern = run_of(s, Test::Pattern, early.number + early.lines, early.next);
    let late = run_of(s, Test::Body, pattern.number + pattern.lines, pattern.next);
    let lyrics = lyrics_from(s, late.number + late.lines, late.next);
    Parts {
        header: number,
        early,
        pattern,
        late,
        lyrics,
    }
}

// What the parts of a section say.
pub fn read_parts(s: &[u8], parts: Parts) -> SectionRead
    requires { Placed s.now parts.early × Placed s.now parts.late }
    ensures { PartsRead s.now parts result }
{
    SectionRead {
        header: parts.header,
        keys: keys_of(s, parts.early),
        modifiers: modifiers_of(s, parts.late),
        pattern: parts.pattern,
        lyrics: parts.lyrics,
    }
}

// The definition whose head begins at a place.
pub fn read_definition(s: &[u8], number: usize, at: usize) -> DefinitionRead
    requires { (1 ≤ number) × (number ≤ at + 1) × (at < length s.now) }
    ensures { DefinitionAt s.now number at result }
{
    let head = line_at(s, number, at);
    DefinitionRead {
        head: number,
        id: head_in(&s[head.start..head.stop]).unwrap_or(0),
        pattern: run_of(s, Test::Full, number + 1, head.next),
    }
}
