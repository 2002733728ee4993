// The starts of all measures, section after section: each section's go into their own stretch of the cue table.
ghost use Rattle.std.specs.Prelude.{◌≡◌, true, ◌+◌, ◌*◌, ◌^◌, ◌≤◌, length};
ghost use Rattle.std.proofs.lemmas.List.Edits.{sets};
ghost use Rattle.songcode.specs.Lists.{sum, every};
ghost use Rattle.songcode.specs.Description.Joined.{beat_count, join_up};
ghost use Rattle.cues.specs.Cues.{beat_length, lengths_at, lengths, starts, is_timed};
ghost use Rattle.cues.specs.Table.{IsTable};

use super::lengths::BEAT_LENGTHS;

// The song's end.
pub fn write_starts(sections: &[u64], measures: &[u32], cues: &mut [u64]) -> u64
    requires { (join_up sections.now measures.now ≡ true) × (every is_timed sections.now ≡ true) × (length measures.now ≤ length cues.old) }
    ensures value { result ≡ sum (lengths sections.now measures.now) }
    ensures cues_after { cues.new ≡ sets cues.old 0 (starts 0 (lengths sections.now measures.now)) }
{
    let table = &BEAT_LENGTHS;
    let mut time = 0;
    let mut first = 0;
    for word in sections {
        let section = packing::section_of(*word);
        let next = first + section.measures;
        time = write_stretch(
            &measures[first..next],
            section.tempo,
            table,
            time,
            &mut cues[first..],
        );
        first = next;
    }
    time
}

// The measures of one section, from a time on; the time at which they end.
fn write_stretch(
    measures: &[u32],
    bpm: usize,
    table: &[u32; 401],
    time: u64,
    cues: &mut [u64],
) -> u64
    requires measures_in_bounds { (length measures.now ≤ length cues.old) × (length measures.now ≤ 2 ^ 21) × (time ≤ 2 ^ 53) × IsTable table.now }
    requires bpm_bound { 1 ≤ length measures.now → bpm ≤ 400 }
    ensures value { (result ≡ time + sum (lengths_at bpm measures.now)) × (result ≤ time + length measures.now * 3780000000) }
    ensures cues_after { cues.new ≡ sets cues.old 0 (starts time (lengths_at bpm measures.now)) }
{
    let mut at = time;
    for (i, word) in measures.iter().enumerate() {
        cues[i] = at;
        at += length_of(*word, bpm, table);
    }
    at
}

// How long a measure lasts.
fn length_of(word: u32, bpm: usize, table: &[u32; 401]) -> u64
    requires { (bpm ≤ 400) × IsTable table.now }
    ensures { (result ≡ beat_count word * beat_length bpm) × (result ≤ 3780000000) }
{
    let measure = packing::measure_of(word);
    (measure.beats as u64) * u64::from(table[bpm])
}
