// Light cues above the reader: when each measure starts, in microseconds, from the section and measure tables alone.
#![tactic(auto)]

mod joins;
mod lengths;
mod starts;

ghost use Rattle.std.specs.Prelude.{◌≡◌, length};
ghost use Rattle.cues.specs.Cues.{refusal_of};
ghost use Rattle.cues.specs.Answers.{lit_by, cues_by};

use refusals::Why;

// The song's end in microseconds, for any three tables. Lend a song's tables cut to its counts: words behind the song's own do not join up.
pub fn light_cues(sections: &[u64], measures: &[u32], cues: &mut [u64]) -> Result<u64, Why>
    ensures value { result ≡ lit_by (refusal_of sections.now measures.now (length cues.old))
        sections.now measures.now }
    ensures cues_after { cues.new ≡ cues_by (refusal_of sections.now measures.now (length cues.old))
        sections.now measures.now cues.old }
{
    if !joins::join_up(sections, measures) {
        return Err(Why::NotJoined);
    }
    if !joins::are_timed(sections) {
        return Err(Why::NotTimed);
    }
    if cues.len() < measures.len() {
        return Err(Why::TableTooShort);
    }
    Ok(starts::write_starts(sections, measures, cues))
}
