// A measure that is written whole: where the table has room for it, nothing is asked of a beat.
ghost use Rattle.std.specs.Prelude.{◌≡◌, ◌+◌, ◌*◌, ◌≤◌, length};
ghost use Rattle.std.proofs.lemmas.List.Edits.{sets};
ghost use Rattle.tokens.specs.Signs.{kind_of};
ghost use Rattle.player.specs.Signs.{sounds_as, lasting_of, part_of};
ghost use Rattle.player.specs.Bars.{beats_of, Counted};

use super::heard::Sound;
use super::leaves::{chord_after, voice};
use packing::head_word;
use tokens::{CHORDS, REMOVER, kind};

// A measure: its positions, how many of them sound, each for its share of N, and the last chord in front of it.
#[derive(Clone, Copy)]
pub struct Bar<'w> {
    pub positions: &'w [u32],
    pub sounding: usize,
    pub share: usize,
    pub last: Sound,
}

// A sound that lasts as long as a table is: the first of its beats has the head.
pub fn write_sound(v: Sound, bs: &mut [u32])
    ensures { bs.new ≡ lasting_of (length bs.old) v.word }
{
    if bs.is_empty() {
        return;
    }
    bs[0] = head_word(v.word);
    bs[1..].fill(v.word);
}

// One position, most often a chord, and the place behind its beats; a remover has none.
pub fn write_position(w: u32, share: usize, last: Sound, b: usize, bs: &mut [u32]) -> usize
    requires { b + share * sounds_as (kind_of w) ≤ length bs.old }
    ensures place { result ≡ b + share * sounds_as (kind_of w) }
    ensures beats { bs.new ≡ sets bs.old b (part_of share last.word w) }
{
    let k = kind(w);
    if k < CHORDS {
        write_sound(Sound { word: w }, &mut bs[b..b + share]);
        return b + share;
    }
    if k == REMOVER {
        return b;
    }
    write_sound(voice(last, w), &mut bs[b..b + share]);
    b + share
}

// All positions of a measure.
pub fn write_bar(bar: Bar, b: usize, bs: &mut [u32])
    requires { Counted bar × (b + bar.share * bar.sounding ≤ length bs.old) }
    ensures { bs.new ≡ sets bs.old b (beats_of bar.entry) }
{
    let mut last = bar.last;
    let mut next = b;
    for &w in bar.positions {
        next = write_position(w, bar.share, last, next, bs);
        last = chord_after(last, w);
    }
}
