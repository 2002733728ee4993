// A lyric line of a section of the row. Safe on every content.
ghost use Rattle.std.specs.Prelude.{◌≡◌, ◌≤◌, ◌<◌};
ghost use Rattle.score.specs.LyricLines.{lyric_at};

use super::definitions::entry_at;

// Where its text stands and how long it is, without count and marks; its line; its count, 0 where it has none; its style.
#[derive(Drop)]
pub struct Lyric {
    pub offset: usize,
    pub length: usize,
    pub number: usize,
    pub count: usize,
    pub style: usize,
}

// The line whose two words stand at a place.
#[tactic(auto, unfolding(crate::specs::LyricLines::lyric_at, crate::specs::LyricLines::lyric_in))]
pub fn lyric_at(words: &[u32], at: usize) -> Lyric
    requires { at ≤ 1000000 }
    ensures value { result ≡ lyric_at words.now at }
    ensures bounds { (result.offset < 65536) × (result.length < 65536) × (result.count < 16384) × (result.style < 4) }
{
    let a = entry_at(words, at);
    let b = entry_at(words, at + 1);
    Lyric {
        offset: (a / 65536) as usize,
        length: (a % 65536) as usize,
        number: (b / 65536) as usize + 1,
        count: (b / 4 % 16384) as usize,
        style: (b % 4) as usize,
    }
}
