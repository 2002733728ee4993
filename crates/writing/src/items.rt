// The prompter items: a word for each lyric line, from its two words in the row.
ghost use Rattle.std.specs.Prelude.{◌≡◌, ◌+◌, ◌≤◌, length};
ghost use Rattle.std.proofs.lemmas.List.Edits.{sets};
ghost use Rattle.writing.specs.Prompts.{words_in, counts_in, prompt_words, lyrics_taken};

use packing::item_word;
use score::{LYRIC, Stretch, lyric_at};

// The lyric lines that become items: none where the song has no items.
pub fn lyrics_taken(items: usize, lyrics: Stretch) -> Stretch
    ensures { result ≡ lyrics_taken items lyrics }
{
    if items == 0 {
        return Stretch { from: 0, to: 0 };
    }
    lyrics
}

// The items of some lyric lines from a measure on; how many they are.
pub fn write_lyrics(words: &[u32], lyrics: Stretch, first: usize, items: &mut [u64]) -> usize
    requires { (lyrics.to ≤ 1000000) × (lyrics.to ≡ lyrics.from + length (words_in words.now lyrics))
        × (first + counts_in (words_in words.now lyrics) ≤ 65535)
        × (length (prompt_words first (words_in words.now lyrics)) ≤ length items.old) }
    ensures items { items.new ≡ sets items.old 0 (prompt_words first (words_in words.now lyrics)) }
    ensures count { result ≡ length (prompt_words first (words_in words.now lyrics)) }
{
    let end = lyrics.to;
    let mut at = lyrics.from;
    let mut measure = first;
    let mut i = 0;
    while at + 1 < end {
        let line = lyric_at(words, at);
        items[i] = item_word(line.offset, line.length, measure, line.count, line.style);
        measure += line.count;
        i += 1;
        at += LYRIC;
    }
    i
}
