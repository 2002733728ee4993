// A chart counted without tables.
ghost use Rattle.turnipcart.specs.Answers.{CountsChart};

// Every text of every length is answered. The refusal is returned; `answer` gets refusal, line, and the counts of sections, measures,
// beats and items, whatever their size.
#[unsafe(no_mangle)]
pub extern "C" fn turnipcart_count(text: &[u8], answer: &mut [usize; 6]) -> usize
    ensures { CountsChart text.now result answer.new }
{
    let a = reader::count(text);
    *answer = [a.refusal, a.line, a.sections, a.measures, a.beats, a.items];
    a.refusal
}
