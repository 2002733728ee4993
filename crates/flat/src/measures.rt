// The lines of a copy's measures, from the words of the beat and measure tables.
ghost use Rattle.std.specs.Prelude.{map, ◌-◌, ◌≤◌, length, replicate};
ghost use Rattle.songcode.specs.Bytes.{ascii};
ghost use Rattle.songcode.specs.Answer.Flat.{spaced, end_line};
ghost use Rattle.flat.specs.Sheets.{Adds};
ghost use Rattle.songcode.specs.Answer.Chords.{spelling_of};
ghost use Rattle.flat.specs.Measures.{letters_at, gap, positions, measure_line, first_measures, measure_lines};

use super::sheets::{put, put_part};
use packing::{beat_of, measure_of};
use tokens::spelling_of;

// The letters of a base chord.
fn put_base(number: usize, copy: &mut [u8], at: usize) -> usize
    ensures { Adds (spelling_of number) copy.old at copy.new result }
{
    let name = spelling_of(number);
    let mut out = at;
    for letter in name {
        if letter == 0 {
            break;
        }
        out = put(letter, copy, out);
    }
    out
}

// What a beat sounds, by its letters; `_` for silence.
fn put_letters(s: &[u8], word: u32, copy: &mut [u8], at: usize) -> usize
    ensures { Adds (letters_at s.now word) copy.old at copy.new result }
{
    let beat = beat_of(word);
    if 33 < beat.base {
        return put(b'_', copy, at);
    }
    let named = put_base(beat.base, copy, at);
    let start = beat.extension.min(s.len());
    let stop = (beat.extension + beat.length).min(s.len());
    put_part(s, start, stop, copy, named)
}

// "one space parts positions": none before the first.
fn put_space(i: usize, copy: &mut [u8], at: usize) -> usize
    ensures { Adds (gap i) copy.old at copy.new result }
{
    if i == 0 {
        return at;
    }
    put(b' ', copy, at)
}

// The beats of a measure, one a position.
fn put_beats(s: &[u8], beats: &[u32], copy: &mut [u8], at: usize) -> usize
    ensures { Adds (spaced (map (letters_at s.now) beats.now)) copy.old at copy.new result }
{
    let mut out = at;
    for (i, word) in beats.iter().enumerate() {
        out = put_space(i, copy, out);
        out = put_letters(s, *word, copy, out);
    }
    out
}

// "missing beats as removers": the positions from one up to N.
fn put_missing(from: usize, n: usize, copy: &mut [u8], at: usize) -> usize
    ensures { Adds (positions from (replicate (n - from) (ascii "="))) copy.old at copy.new result }
{
    let mut out = at;
    for i in from..n {
        out = put_space(i, copy, out);
        out = put(b'=', copy, out);
    }
    out
}

// "each as N positions, one a beat, missing beats as removers": the line of a measure.
fn put_measure(s: &[u8], n: usize, beats: &[u32], copy: &mut [u8], at: usize) -> usize
    ensures { Adds (end_line (measure_line s.now n beats.now)) copy.old at copy.new result }
{
    let heard = put_beats(s, beats, copy, at);
    let filled = put_missing(beats.len(), n, copy, heard);
    put(b'\n', copy, filled)
}

// The lines of the first k measures of two tables.
pub fn put_measures(
    s: &[u8],
    n: usize,
    k: usize,
    measures: &[u32],
    beats: &[u32],
    copy: &mut [u8],
    at: usize,
) -> usize
    requires { k ≤ length measures.now }
    ensures { Adds (measure_lines s.now n (first_measures k measures.now beats.now))
        copy.old at copy.new result }
{
    let mut out = at;
    for word in &measures[..k] {
        let m = measure_of(*word);
        let first = m.first.min(beats.len());
        let end = (m.first + m.beats).min(beats.len());
        out = put_measure(s, n, &beats[first..end], copy, out);
    }
    out
}
