// A section opened: what it says, and its three texts in the buffer behind the definitions, each with its outline.
ghost use Rattle.std.specs.Prelude.{◌≡◌, ◌<◌, length, take, drop};
ghost use Rattle.songcode.specs.Answer.Answer.{song_of};
ghost use Rattle.tokens.specs.Kept.{KeptFrom};
ghost use Rattle.outlines.specs.Readings.{outlined};
ghost use Rattle.outlines.specs.Words.{look_up};
ghost use Rattle.sections.specs.Onward.{Onward};
ghost use Rattle.laying.specs.Rows.{told_texts, RoomFor, Before, SongKeys, Lays};

use super::names::{named_at, outline_by};
use super::rows::{Heads, Places, enter_section, lay_parts, meter_of, tempo_of};
use outlines::{Outline, even_measures, outline_of};
use score::{SECTION_HEADS, Stretch, played_text};
use sections::{Keys, Place, SectionRead, meet};

// A text in the buffer, and what it says.
#[derive(Clone, Copy)]
pub struct Text {
    pub at: Stretch,
    pub outline: Outline,
}

#[derive(Clone, Copy)]
pub struct Texts {
    pub lead: Text,
    pub pattern: Text,
    pub tail: Text,
}

// A section, its N, the number of the definition that its pattern names (0 if none), its texts, where its lyric lines stand in the row, where its
// words end there, and where the next begins.
#[derive(Clone, Copy)]
pub struct Opened {
    pub section: SectionRead,
    pub meter: usize,
    pub named: u32,
    pub texts: Texts,
    pub lyrics: Stretch,
    pub end: usize,
    pub next: Place,
}

// A text that holds no reference.
fn plain_text(words: &[u32], at: Stretch) -> Text
    ensures { result ≡ record {
      at = at;
      outline = outlined (look_up words.now) (drop at.from (take at.to words.now));
    } }
{
    Text {
        at,
        outline: outline_of(words, at),
    }
}

// The texts of a section whose words stand at these places and whose pattern says so much; it may play the text of a definition.
fn told_texts(words: &[u32], p: Places, o: Outline) -> Texts
    ensures { result ≡ told_texts words.now p o }
{
    let lead = plain_text(
        words,
        Stretch {
            from: p.from,
            to: p.begun,
        },
    );
    let tail = plain_text(
        words,
        Stretch {
            from: p.ended,
            to: p.last,
        },
    );
    let at = played_text(
        words,
        Stretch {
            from: p.begun,
            to: p.ended,
        },
    );
    let pattern = Text { at, outline: o };
    Texts {
        lead,
        pattern,
        tail,
    }
}

// The section at a place of the text, laid into the row from another place on.
pub fn lay_section(s: &[u8], p: Place, song: Keys, at: usize, words: &mut [u32]) -> Opened
    requires place { Onward s.now p × (p.at < length s.now) × RoomFor s.now p at × KeptFrom s.now words.old at }
    requires row { Before s.now words.old at × SongKeys (song_of s.now) song }
    ensures lays { Lays s.now p song at words.old words.new result }
    ensures length { length words.new ≡ length words.old }
{
    let met = meet(s, p);
    let section = met.section;
    let keys = section.keys;
    let meter = meter_of(keys.time, song.time);
    let tempo = tempo_of(keys.bpm, song.bpm);
    let places = lay_parts(s, section, words, at + SECTION_HEADS);
    let text = Stretch {
        from: places.begun,
        to: places.ended,
    };
    let named = named_at(words, text);
    let outline = outline_by(words, text, named);
    let even = even_measures(outline, meter);
    enter_section(words, at, section, Heads { meter, tempo, even }, places);
    let texts = told_texts(words, places, outline);
    let lyrics = Stretch {
        from: places.last,
        to: places.end,
    };
    Opened {
        section,
        meter,
        named,
        texts,
        lyrics,
        end: places.end,
        next: met.next,
    }
}
