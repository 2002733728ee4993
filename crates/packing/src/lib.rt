// The words of the tables: "bit-packed fields, most significant first, bits not named are 0".
// Every field is asked to fit its bits, so that no field spills into its neighbour. `fields` takes words apart, `beats` has what is done with one of a beat.
#![tactic(auto)]

mod beats;
mod fields;

ghost use Rattle.std.specs.Prelude.{◌≡◌, ◌+◌, ◌*◌, ◌^◌, ◌<◌};
ghost use Rattle.songcode.specs.Answer.Tables.{section_word, measure_word};
ghost use Rattle.packing.specs.Fields.{packed_item};

pub use beats::{SILENCE, beat_base, beat_spare, head_word, with_base};
pub use fields::{
    BeatFields, ItemFields, MeasureFields, SectionFields, beat_of, item_of, measure_of, section_of,
};

// The keys table has a word for each of so many keys.
pub const KEYS: usize = 8;

// keys: present 1, offset 16, length 9.
pub fn key_word(offset: usize, length: usize) -> u32
    requires { (offset < 65536) × (length < 512) }
    ensures { result ≡ 2 ^ 31 + offset * 2 ^ 15 + length * 2 ^ 6 }
{
    (1 << 31) + ((offset as u32) << 15) + ((length as u32) << 6)
}

// sections: header line 17, first measure 16, measures 16, N 6, bpm 9.
pub fn section_word(header: usize, first: usize, measures: usize, meter: usize, tempo: usize) -> u64
    requires { (header < 131072) × (first < 65536) × (measures < 65536) × (meter < 64) × (tempo < 512) }
    ensures { result ≡ section_word header first measures meter tempo }
{
    ((header as u64) << 47)
        + ((first as u64) << 31)
        + ((measures as u64) << 15)
        + ((meter as u64) << 9)
        + (tempo as u64)
}

// measures: first beat 21, beats 6.
pub fn measure_word(first: usize, beats: usize) -> u32
    requires { (first < 2097152) × (beats < 64) }
    ensures { result ≡ measure_word first beats }
{
    ((first as u32) << 11) + ((beats as u32) << 5)
}

// So much more is the word of a measure that begins a beat later.
pub const BEAT_LATER: usize = 1 << 11;

// items: text offset 16, length 16, first measure 16, measures 14, style 2.
pub fn item_word(offset: usize, length: usize, first: usize, measures: usize, style: usize) -> u64
    requires { (offset < 65536) × (length < 65536) × (first < 65536) × (measures < 16384) × (style < 4) }
    ensures { result ≡ packed_item offset length first measures style }
{
    ((offset as u64) << 48)
        + ((length as u64) << 32)
        + ((first as u64) << 16)
        + ((measures as u64) << 2)
        + (style as u64)
}
