// Where the metadata of a chart ends.
ghost use Rattle.std.specs.Prelude.{◌≡◌, [], ◌≤◌};
ghost use Rattle.songcode.specs.Answer.Answer.{blocks_of};
ghost use Rattle.songcode.specs.Answer.SongText.{text_faults};
ghost use Rattle.laying.specs.Metadata.{lines_before, MetadataEnds};

use sections::{Place, Run, Test, kind_at, next_block, run_of};
use settings::BlockKind;

// Where the first block begins that is no metadata; the end of the text where there is none.
pub fn metadata_end(s: &[u8]) -> Place
    requires { text_faults (blocks_of s.now) ≡ [] }
    ensures { MetadataEnds s.now result }
{
    let mut place = next_block(s, 1, 0);
    while place.at < s.len() {
        match kind_at(s, place.number, place.at) {
            BlockKind::Metadata => {
                let block = run_of(s, Test::Full, place.number, place.at);
                place = next_block(s, place.number + block.lines, block.next);
            }
            BlockKind::Definition | BlockKind::Section => return place,
        }
    }
    place
}

// All lines before a place.
pub fn lines_before(p: Place) -> Run
    requires { 1 ≤ p.number }
    ensures { result ≡ lines_before p }
{
    Run {
        number: 1,
        at: 0,
        lines: p.number - 1,
        next: p.at,
    }
}
