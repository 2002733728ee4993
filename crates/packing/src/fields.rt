// The fields of the words of the sections, measures, beats and items tables, taken out of the bits that they are packed in.
// Any word may be asked, also one that no table holds; bits that document 01 does not name say nothing.
ghost use Rattle.std.specs.Prelude.{◌≡◌, ◌/◌, ◌%◌, ◌^◌, ◌<◌};
ghost use Rattle.packing.specs.Fields.{HoldsSection, HoldsMeasure, HoldsBeat, HoldsItem};

#[derive(Clone, Copy, PartialEq, Eq)]
pub struct SectionFields {
    pub header: usize,
    pub first: usize,
    pub measures: usize,
    pub meter: usize,
    pub tempo: usize,
}

#[derive(Clone, Copy, PartialEq, Eq)]
pub struct MeasureFields {
    pub first: usize,
    pub beats: usize,
}

#[derive(Clone, Copy, PartialEq, Eq)]
pub struct BeatFields {
    pub base: usize,
    pub extension: usize,
    pub length: usize,
    pub head: bool,
}

#[derive(Clone, Copy, PartialEq, Eq)]
pub struct ItemFields {
    pub offset: usize,
    pub length: usize,
    pub first: usize,
    pub measures: usize,
    pub style: usize,
}

// The field of so many bits, so many from the lowest on.
fn field(word: u64, from: u32, bits: u32) -> usize
    requires { (from < 64) × (bits < 64) }
    ensures { result ≡ word / 2 ^ from % 2 ^ bits }
{
    ((word >> from) & ((1 << bits) - 1)) as usize
}

// sections: header line 17, first measure 16, measures 16, N 6, bpm 9.
pub fn section_of(word: u64) -> SectionFields
    ensures { HoldsSection word result }
{
    SectionFields {
        header: field(word, 47, 17),
        first: field(word, 31, 16),
        measures: field(word, 15, 16),
        meter: field(word, 9, 6),
        tempo: field(word, 0, 9),
    }
}

// measures: first beat 21, beats 6, and 5 bits not named.
pub fn measure_of(word: u32) -> MeasureFields
    ensures { HoldsMeasure word result }
{
    let word = u64::from(word);
    MeasureFields {
        first: field(word, 11, 21),
        beats: field(word, 5, 6),
    }
}

// beats: base 6, extension offset 16, length 5, head 1, and 4 bits not named.
pub fn beat_of(word: u32) -> BeatFields
    ensures { HoldsBeat word result }
{
    let word = u64::from(word);
    BeatFields {
        base: field(word, 26, 6),
        extension: field(word, 10, 16),
        length: field(word, 5, 5),
        head: field(word, 4, 1) == 1,
    }
}

// items: text offset 16, length 16, first measure 16, measures 14, style 2.
pub fn item_of(word: u64) -> ItemFields
    ensures { HoldsItem word result }
{
    ItemFields {
        offset: field(word, 48, 16),
        length: field(word, 32, 16),
        first: field(word, 16, 16),
        measures: field(word, 2, 14),
        style: field(word, 0, 2),
    }
}
