// N of the section that holds a line.
ghost use Rattle.std.specs.Prelude.{◌≡◌, []};
ghost use Rattle.songcode.specs.Answer.Answer.{blocks_of};
ghost use Rattle.songcode.specs.Answer.SongText.{text_faults};
ghost use Rattle.explain.specs.Times.{TimeAt};

use laying::{lines_before, metadata_end, meter_of};
use sections::{keys_of, section_parts};
use slips::block_of;

// "N is the section's time, else the song's"; 0 where the text has no such line.
pub fn time_at(s: &[u8], line: usize) -> usize
    requires { text_faults (blocks_of s.now) ≡ [] }
    ensures { TimeAt s.now line result }
{
    let end = metadata_end(s);
    let song = keys_of(s, lines_before(end));
    let block = block_of(s, line);
    if s.len() <= block.at {
        return 0;
    }
    let parts = section_parts(s, block.number, block.at);
    let keys = keys_of(s, parts.early);
    meter_of(keys.time, song.time)
}
