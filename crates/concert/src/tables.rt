// A table of beats moved word by word.
ghost use Rattle.std.specs.Prelude.{◌≡◌, true, false, ◌≤◌, length};
ghost use Rattle.std.specs.Result.{result_err};
ghost use Rattle.std.proofs.lemmas.List.Edits.{sets};
ghost use Rattle.songcode.specs.Lists.{any};
ghost use Rattle.concert.specs.Pitches.{is_allowed};
ghost use Rattle.concert.specs.Moves.{is_odd, moved_word, moved_table};
ghost use Rattle.concert.specs.Promises.{Moves};

use super::pitches::{is_allowed, moved_base};
use packing::{SILENCE, beat_base, beat_spare, with_base};
use refusals::Why;

const BASES: u32 = 34;

// Neither a base chord nor silence, or a spare bit set.
fn is_odd(word: u32) -> bool
    ensures { result ≡ is_odd word }
{
    beat_spare(word) != 0 || (BASES..SILENCE).contains(&beat_base(word))
}

fn has_odd(beats: &[u32]) -> bool
    ensures { result ≡ any is_odd beats.now }
{
    beats.iter().any(|word| is_odd(*word))
}

// The base moved, all else as it was.
fn moved_word(word: u32, shift: i32) -> u32
    requires word_value { is_odd word ≡ false }
    requires shift_value { is_allowed shift ≡ true }
    ensures { result ≡ moved_word shift word }
{
    let base = beat_base(word);
    if base == SILENCE {
        word
    } else {
        with_base(word, moved_base(base as usize, shift))
    }
}

fn write_moved(beats: &[u32], shift: i32, second: &mut [u32])
    requires beats_value { any is_odd beats.now ≡ false }
    requires shift_value { is_allowed shift ≡ true }
    requires beats_in_bounds { length beats.now ≤ length second.old }
    ensures { second.new ≡ sets second.old 0 (moved_table shift beats.now) }
{
    for (i, word) in beats.iter().enumerate() {
        second[i] = moved_word(*word, shift);
    }
}

// Every table, every move and every length of the second table are answered: the moved words, or a refusal and the second table as it was.
pub fn concert_pitch(beats: &[u32], shift: i32, second: &mut [u32]) -> Result<(), Why>
    ensures { Moves shift beats.now second.old (result_err result) second.new }
{
    if !is_allowed(shift) {
        return Err(Why::MoveOutOfRange);
    }
    if has_odd(beats) {
        return Err(Why::NoBeatWord);
    }
    if second.len() < beats.len() {
        return Err(Why::TableTooShort);
    }
    write_moved(beats, shift, second);
    Ok(())
}
