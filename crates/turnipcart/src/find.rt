// The second call: the record that holds a beat, found by halving.
ghost use Rattle.turnipcart.specs.Answers.{FindsBeat};

// For any table and any beat. The refusal is returned, 0 where a record holds the beat; `found` gets refusal, place and probes.
#[unsafe(no_mangle)]
pub extern "C" fn turnipcart_find(measures: &[u32], beat: u32, found: &mut [usize; 3]) -> usize
    ensures { FindsBeat measures.now beat result found.new }
{
    let f = seek::find_measure(measures, beat);
    let refusal = f.refused().map_or(0, usize::from);
    *found = [refusal, f.place.unwrap_or(0), f.probes];
    refusal
}
