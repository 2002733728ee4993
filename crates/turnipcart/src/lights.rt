// The light cues: when each measure starts.
ghost use Rattle.turnipcart.specs.Answers.{LightsCues};

// For any three tables. The refusal is returned; `end` gets the song's end, or 0.
#[unsafe(no_mangle)]
pub extern "C" fn turnipcart_cues(
    sections: &[u64],
    measures: &[u32],
    starts: &mut [u64],
    end: &mut u64,
) -> usize
    ensures { LightsCues sections.now measures.now starts.old result end.new starts.new }
{
    let lit = cues::light_cues(sections, measures, starts);
    *end = lit.unwrap_or(0);
    lit.err().map_or(0, usize::from)
}
