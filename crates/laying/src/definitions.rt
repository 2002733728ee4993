// The definitions of a chart, laid into the row one behind another, each behind its head and its outline; stage 3 as far as it speaks of them.
ghost use Rattle.std.specs.Prelude.{◌≡◌, [], ◌+◌, ◌≤◌, ◌<◌, length};
ghost use Rattle.songcode.specs.Answer.Answer.{blocks_of};
ghost use Rattle.songcode.specs.Answer.SongText.{text_faults, block_kind, definition};
ghost use Rattle.tokens.specs.Kept.{KeptFrom};
ghost use Rattle.laying.specs.Metadata.{MetadataEnds};
ghost use Rattle.sections.specs.BlockParts.{block_at};
ghost use Rattle.laying.specs.Scores.{Loads};
ghost use Rattle.laying.specs.Loading.{Loading, LoadsOne, entered};

use super::laying::lay_run;
use outlines::{Outline, outline_of, outline_word, reference_fault};
use refusals::Refusal;
use score::{HEADS, Stretch, head_word};
use sections::{Place, kind_at, next_block, read_definition};
use settings::BlockKind;

// The place of the mark behind the last definition, and where the first section begins.
#[derive(Clone, Copy)]
pub struct Loaded {
    pub mark: usize,
    pub sections: Place,
}

// The two words in front of a definition's text, and the mark behind it.
fn enter(words: &mut [u32], mark: usize, end: usize, id: usize, o: Outline)
    requires { (mark + 2 ≤ end) × (end < length words.old) × (end ≤ 65537) × (id ≤ 9999) × (o.sizes ≤ 33) × (o.measures ≤ 65536) × (o.depth ≤ 7) }
    ensures { words.new ≡ entered mark end id o words.old }
{
    let head = head_word(end - mark, id);
    let outline = outline_word(o);
    words[mark + 1] = outline;
    words[mark] = head;
    words[end] = 0;
}

// The definition at a place, laid where the mark is, and the place of the next block; or what is wrong with its references.
fn load_one(s: &[u8], p: Place, mark: usize, words: &mut [u32]) -> Result<Loaded, Refusal>
    requires { Loading s.now words.old mark p × (p.at < length s.now) × (block_kind (block_at s.now p.number p.at) ≡ definition) }
    ensures { LoadsOne s.now words.new p result × (length words.new ≡ length words.old) }
{
    let e = read_definition(s, p.number, p.at);
    let run = e.pattern;
    let sections = next_block(s, run.number + run.lines, run.next);
    let from = mark + HEADS;
    let end = lay_run(s, run, words, from);
    let text = Stretch { from, to: end };
    if let Some(why) = reference_fault(words, text) {
        return Err(Refusal { why, line: e.head });
    }
    let outline = outline_of(words, text);
    enter(words, mark, end, e.id, outline);
    Ok(Loaded {
        mark: end,
        sections,
    })
}

// The definitions from a block on, and the place of the first section; or the first refusal of stage 3 among them.
pub fn load(s: &[u8], first: Place, words: &mut [u32]) -> Result<Loaded, Refusal>
    requires { (text_faults (blocks_of s.now) ≡ []) × MetadataEnds s.now first × (length s.now ≤ 65536) × KeptFrom s.now words.old 0 }
    ensures { Loads s.now words.new result × (length words.new ≡ length words.old) }
{
    words[0] = 0;
    let mut mark: usize = 0;
    let mut place = first;
    while place.at < s.len() {
        match kind_at(s, place.number, place.at) {
            BlockKind::Metadata | BlockKind::Section => break,
            BlockKind::Definition => {
                let next = load_one(s, place, mark, words)?;
                mark = next.mark;
                place = next.sections;
            }
        }
    }
    Ok(Loaded {
        mark,
        sections: place,
    })
}
