// The first call: a chart is read into the lent tables.
ghost use Rattle.turnipcart.specs.Answers.{ReadsChart};

// Every text of every length and every length of every table is answered. The refusal is returned; `answer` gets refusal,
// line, and the counts of sections, measures, beats and items.
#[unsafe(no_mangle)]
pub extern "C" fn turnipcart_read(
    text: &[u8],
    keys: &mut [u32],
    sections: &mut [u64],
    measures: &mut [u32],
    beats: &mut [u32],
    items: &mut [u64],
    answer: &mut [usize; 6],
) -> usize
    ensures { ReadsChart text.now (record {
      keys = keys.old;
      sections = sections.old;
      measures = measures.old;
      beats = beats.old;
      items = items.old;
    }) result answer.new
        (record {
          keys = keys.new;
          sections = sections.new;
          measures = measures.new;
          beats = beats.new;
          items = items.new;
        }) }
{
    let a = reader::read(text, keys, sections, measures, beats, items);
    *answer = [a.refusal, a.line, a.sections, a.measures, a.beats, a.items];
    a.refusal
}
