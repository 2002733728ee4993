// Whether tables join up, and whether every section with measures has a bpm.
ghost use Rattle.std.specs.Prelude.{◌≡◌};
ghost use Rattle.songcode.specs.Lists.{every};
ghost use Rattle.songcode.specs.Description.Joined.{covers, measures_join, join_up};
ghost use Rattle.cues.specs.Cues.{is_timed};

const MOST_BEATS: usize = 32;

const MOST_BPM: usize = 400;

#[tactic(auto, unfolding(songcode::specs::Description::Joined::join_up))]
pub fn join_up(sections: &[u64], measures: &[u32]) -> bool
    ensures { result ≡ join_up sections.now measures.now }
{
    cover(sections, measures.len()) && follow_on(measures)
}

// The sections "cover the measures in order without gap"; a loop, as each is judged by the sum of those before it.
fn cover(sections: &[u64], measures: usize) -> bool
    ensures { result ≡ covers 0 measures sections.now }
{
    let mut first = 0;
    for word in sections {
        let section = packing::section_of(*word);
        if section.first != first {
            return false;
        }
        first += section.measures;
    }
    first == measures
}

// Each measure has 1 to 32 beats and starts where the last ended, the first at 0; a loop, as in `cover`.
fn follow_on(measures: &[u32]) -> bool
    ensures { result ≡ measures_join 0 measures.now }
{
    let mut beat = 0;
    for word in measures {
        let measure = packing::measure_of(*word);
        if measure.first != beat || !(1..=MOST_BEATS).contains(&measure.beats) {
            return false;
        }
        beat += measure.beats;
    }
    true
}

// No section with measures has a bpm of 0 or above 400.
pub fn are_timed(sections: &[u64]) -> bool
    ensures { result ≡ every is_timed sections.now }
{
    sections.iter().all(|word| is_timed(*word))
}

fn is_timed(word: u64) -> bool
    ensures { result ≡ is_timed word }
{
    let section = packing::section_of(word);
    section.measures == 0 || (1..=MOST_BPM).contains(&section.tempo)
}
