// Each section's word, measures, beats and items into the tables, in one walk over the row.
ghost use Rattle.std.specs.Prelude.{◌≡◌, length};
ghost use Rattle.std.proofs.lemmas.List.Edits.{sets};
ghost use Rattle.songcode.specs.Answer.Tables.{tables};
ghost use Rattle.songcode.specs.Answer.Answer.{song_of};
ghost use Rattle.judging.specs.Charts.{Laid, Roomy};

use super::items::{lyrics_taken, write_lyrics};
use packing::section_word;
use player::{arrangement_in, play_section};
use score::{Stretch, section_at};

// The sections that stand in the row from one place up to another, of the song that the text describes; so many items it has.
pub fn write_song(
    s: &[u8],
    words: &[u32],
    rows: Stretch,
    count: usize,
    sections: &mut [u64],
    measures: &mut [u32],
    beats: &mut [u32],
    items: &mut [u64],
)
    requires song { Laid s.now words.now rows × (count ≡ length (tables (song_of s.now)).items) }
    requires room { Roomy (tables (song_of s.now)) sections.old measures.old beats.old items.old }
    ensures sections { sections.new ≡ sets sections.old 0 (tables (song_of s.now)).sections }
    ensures measures { measures.new ≡ sets measures.old 0 (tables (song_of s.now)).measures }
    ensures beats { beats.new ≡ sets beats.old 0 (tables (song_of s.now)).beats }
    ensures items { items.new ≡ sets items.old 0 (tables (song_of s.now)).items }
{
    let end = rows.to;
    let mut at = rows.from;
    let mut k = 0;
    let mut m = 0;
    let mut b = 0;
    let mut i = 0;
    while at < end {
        let v = section_at(words, at);
        let c = play_section(
            words,
            arrangement_in(words, v),
            b,
            &mut measures[m..],
            &mut beats[b..],
        );
        sections[k] = section_word(v.header, m, c.measures, v.meter, v.tempo);
        i += write_lyrics(words, lyrics_taken(count, v.lyrics), m, &mut items[i..]);
        k += 1;
        m += c.measures;
        b += c.beats;
        at = v.next;
    }
}
