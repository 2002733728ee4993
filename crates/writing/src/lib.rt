// All tables of a song that nothing is wrong with, from the row.
#![tactic(auto)]

mod items;
mod keys;
mod songs;

ghost use Rattle.std.specs.Prelude.{◌≡◌, ◌≤◌, length};
ghost use Rattle.std.proofs.lemmas.List.Edits.{sets};
ghost use Rattle.songcode.specs.Answer.Answer.{song_of};
ghost use Rattle.songcode.specs.Answer.Tables.{tables};
ghost use Rattle.judging.specs.Charts.{Writable, Roomy};

use judging::Chart;
use keys::write_keys;
use songs::write_song;

pub fn write_tables(
    s: &[u8],
    chart: Chart,
    words: &[u32],
    keys: &mut [u32],
    sections: &mut [u64],
    measures: &mut [u32],
    beats: &mut [u32],
    items: &mut [u64],
)
    requires chart { Writable s.now words.now chart }
    requires room { (8 ≤ length keys.old) × Roomy (tables (song_of s.now)) sections.old measures.old beats.old items.old }
    ensures keys { keys.new ≡ sets keys.old 0 (tables (song_of s.now)).keys }
    ensures sections { sections.new ≡ sets sections.old 0 (tables (song_of s.now)).sections }
    ensures measures { measures.new ≡ sets measures.old 0 (tables (song_of s.now)).measures }
    ensures beats { beats.new ≡ sets beats.old 0 (tables (song_of s.now)).beats }
    ensures items { items.new ≡ sets items.old 0 (tables (song_of s.now)).items }
{
    write_keys(words, chart.rows.to, keys);
    write_song(
        s,
        words,
        chart.rows,
        chart.totals.items,
        sections,
        measures,
        beats,
        items,
    );
}
