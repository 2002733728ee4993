// The words of a section in the row: four about it, its cuts, its texts and its lyric lines.
ghost use Rattle.std.specs.Prelude.{◌≡◌, ◌+◌, ◌*◌, ◌-◌, ◌≤◌, ◌<◌, length};
ghost use mathlib.Core.List.{map, flat_map};
ghost use Rattle.std.proofs.lemmas.List.Edits.{sets};
ghost use Rattle.songcode.specs.Bytes.{placed};
ghost use Rattle.songcode.specs.Answer.Sections.{lyric_line};
ghost use Rattle.text.specs.Spans.{part};
ghost use Rattle.tokens.specs.Kept.{KeptFrom};
ghost use Rattle.settings.specs.Cuts.{CutFits};
ghost use Rattle.score.specs.Sections.{bit, lyric_row};
ghost use Rattle.score.specs.Fitting.{LyricFits, LyricsFit};
ghost use Rattle.sections.specs.Runs.{lines_of};
ghost use Rattle.sections.specs.BlockParts.{Placed};
ghost use Rattle.sections.specs.Slots.{Inside, setting_at};
ghost use Rattle.laying.specs.Laying.{weight, said_weight};
ghost use Rattle.laying.specs.Rows.{meter_of, tempo_of, place_word, read_word, has_cut, cuts_said, parts_said, PlacesAre, about_section};

use super::laying::{lay_run, lay_said};
use cuts::Cut;
use sections::{Modifiers, Run, SectionRead};
use settings::{lyric_words, style_of};
use text::line_at;

// "N is the section's time, else the song's"; 0 is no time.
pub fn meter_of(own: usize, song: usize) -> usize
    ensures { result ≡ meter_of own song }
{
    if own != 0 {
        return own;
    }
    if song != 0 { song } else { 4 }
}

// "bpm (section's, else song's, else 511)"
pub fn tempo_of(own: usize, song: usize) -> usize
    ensures { result ≡ tempo_of own song }
{
    if own == 511 { song } else { own }
}

// Two fields of 16 bits.
fn halves(upper: usize, lower: usize) -> u32
    requires { (upper < 65536) × (lower < 65536) }
    ensures { result ≡ upper * 65536 + lower }
{
    (upper as u32) * 65536 + (lower as u32)
}

// Where a text stands: offset 16, length 16; 0 for an empty text.
fn place_word(start: usize, stop: usize) -> u32
    requires { (0 < start) × (start ≤ stop) × (stop ≤ 65536) }
    ensures { result ≡ place_word start stop }
{
    if start == stop {
        return 0;
    }
    halves(start, stop - start)
}

// A lyric line's number less 1: 16, its count 14, its style 2.
fn line_word(number: usize, count: usize, style: usize) -> u32
    requires { (1 ≤ number) × (number ≤ 65536) × (count ≤ 9999) × (style ≤ 2) }
    ensures { result ≡ (number - 1) * 65536 + count * 4 + style }
{
    (number as u32 - 1) * 65536 + (count as u32) * 4 + (style as u32)
}

// The two words of a lyric line.
fn lay_lyric(s: &[u8], number: usize, start: usize, stop: usize, words: &mut [u32], n: usize)
    requires { (1 ≤ number) × (number ≤ 65536) × (0 < start) × (start ≤ stop) × (stop ≤ length s.now) × (length s.now ≤ 65536)
        × (n + 1 < length words.old) }
    ensures held { words.new ≡ sets words.old n
        (lyric_row (record { number = number; text = placed start (part start stop s.now) })) }
    ensures fits { LyricFits (record { number = number; text = placed start (part start stop s.now) }) }
{
    let line = lyric_words(s, start, stop);
    let styled = style_of(s, start, line.stop);
    let place = place_word(styled.start, styled.stop);
    let about = line_word(number, line.count, styled.style);
    words[n] = place;
    words[n + 1] = about;
}

// The words of the lyric lines of a run.
pub fn lay_lyrics(s: &[u8], run: Run, words: &mut [u32], n: usize) -> usize
    requires { Placed s.now run × (0 < length (lines_of s.now run) → 2 ≤ run.number) × (length s.now ≤ 65536)
        × (n + 2 * length (lines_of s.now run) ≤ length words.old) }
    ensures held { words.new ≡ sets words.old n (flat_map lyric_row (map lyric_line (lines_of s.now run))) }
    ensures fill { result ≡ n + 2 * length (lines_of s.now run) }
    ensures fits { LyricsFit (map lyric_line (lines_of s.now run)) }
{
    let mut number = run.number;
    let mut at = run.at;
    let mut fill = n;
    for _ in 0..run.lines {
        if at == s.len() {
            break;
        }
        let line = line_at(s, number, at);
        lay_lyric(s, number, line.start, line.stop, words, fill);
        fill += 2;
        number += 1;
        at = line.next;
    }
    fill
}

// Whether a section has a cut.
pub fn has_cut(m: Modifiers) -> bool
    ensures { result ≡ has_cut m }
{
    m.front.is_some() || m.back.is_some()
}

// A cut of so many measures 14 and beats 14.
fn packed_cut(measures: usize, beats: usize) -> u32
    requires { (measures ≤ 9999) × (beats ≤ 9999) }
    ensures { result ≡ measures * 262144 + beats * 16 }
{
    (measures as u32) * 262144 + (beats as u32) * 16
}

// The word of a cut; 0 where there is none.
fn cut_word(c: Option<Cut>) -> u32
    requires { CutFits c }
    ensures { result ≡ read_word c }
{
    match c {
        Some(cut) => packed_cut(cut.measures.0, cut.beats.0),
        None => 0,
    }
}

// The words of the two cuts, if there is one.
fn lay_cuts(m: Modifiers, words: &mut [u32], n: usize) -> usize
    requires { CutFits m.front × CutFits m.back × (n + 2 ≤ length words.old) }
    ensures held { words.new ≡ sets words.old n (cuts_said m) }
    ensures fill { result ≡ n + length (cuts_said m) }
{
    if !has_cut(m) {
        return n;
    }
    let first = cut_word(m.front);
    let second = cut_word(m.back);
    words[n] = first;
    words[n + 1] = second;
    n + 2
}

// Where the lead-in, the pattern, the tail and the lyrics begin, and where they end.
#[derive(Clone, Copy)]
pub struct Places {
    pub from: usize,
    pub begun: usize,
    pub ended: usize,
    pub last: usize,
    pub end: usize,
}

// The parts of a section, one behind the other.
pub fn lay_parts(s: &[u8], section: SectionRead, words: &mut [u32], at: usize) -> Places
    requires places { Placed s.now section.pattern × Placed s.now section.lyrics
        × (0 < length (lines_of s.now section.lyrics) → 2 ≤ section.lyrics.number)
        × Inside s.now section.modifiers.before × Inside s.now section.modifiers.after × (length s.now ≤ 65536)
        × KeptFrom s.now words.old at }
    requires cuts { CutFits section.modifiers.front × CutFits section.modifiers.back }
    requires room { at + (2 + (said_weight (setting_at s.now section.modifiers.before) + weight (lines_of s.now section.pattern)
        + said_weight (setting_at s.now section.modifiers.after) + 2 * length (lines_of s.now section.lyrics))) ≤ length words.old }
    ensures held { words.new ≡ sets words.old at (parts_said s.now section) }
    ensures places { PlacesAre s.now section at result }
    ensures fits { LyricsFit (map lyric_line (lines_of s.now section.lyrics)) }
{
    let modifiers = section.modifiers;
    let from = lay_cuts(modifiers, words, at);
    let begun = lay_said(s, modifiers.before, words, from);
    let ended = lay_run(s, section.pattern, words, begun);
    let last = lay_said(s, modifiers.after, words, ended);
    let end = lay_lyrics(s, section.lyrics, words, last);
    Places {
        from,
        begun,
        ended,
        last,
        end,
    }
}

// How many words a section takes 17, N 6, bpm 9.
fn size_word(length: usize, meter: usize, tempo: usize) -> u32
    requires { (length ≤ 131071) × (meter ≤ 32) × (tempo ≤ 511) }
    ensures { result ≡ length * 32768 + meter * 512 + tempo }
{
    (length as u32) * 32768 + (meter as u32) * 512 + (tempo as u32)
}

fn bit_of(b: bool) -> u32
    ensures { (result ≡ bit b) × (result ≤ 1) }
{
    if b { 1 } else { 0 }
}

// The header's line less 1: 16, repeat 14, whether it is cut 1.
fn header_word(header: usize, repeat: usize, cut: bool) -> u32
    requires { (1 ≤ header) × (header ≤ 65536) × (repeat ≤ 9999) }
    ensures { result ≡ (header - 1) * 65536 + repeat * 4 + bit cut * 2 }
{
    (header as u32 - 1) * 65536 + (repeat as u32) * 4 + bit_of(cut) * 2
}

// What the section's words say besides its own settings: its N, its bpm, and how many measures its pattern has if each has N beats (else 0).
#[derive(Drop)]
pub struct Heads {
    pub meter: usize,
    pub tempo: usize,
    pub even: usize,
}

// The four words in front of a section's parts.
pub fn enter_section(words: &mut [u32], at: usize, r: SectionRead, h: Heads, p: Places)
    requires header { (1 ≤ r.header) × (r.header ≤ 65536) × (r.modifiers.repeat ≤ 9999) × (h.meter ≤ 32) × (h.tempo ≤ 511) × (h.even < 65536) }
    requires places { (p.from ≤ p.begun) × (p.begun - p.from < 65536) × (p.ended ≤ p.last) × (p.last - p.ended < 65536) × (at + 3 < p.end)
        × (p.last ≤ p.end) × (p.end - p.last < 131072) × (p.end ≤ 131071) × (p.end ≤ length words.old) }
    ensures { words.new ≡ about_section r h at p words.old }
{
    let modifiers = r.modifiers;
    let a = size_word(p.end - at, h.meter, h.tempo);
    let b = header_word(r.header, modifiers.repeat, has_cut(modifiers));
    let c = halves(p.begun - p.from, p.last - p.ended);
    let d = halves((p.end - p.last) / 2, h.even);
    words[at + 3] = d;
    words[at + 2] = c;
    words[at + 1] = b;
    words[at] = a;
}
