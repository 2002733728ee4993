// A refused chart explained.
ghost use Rattle.turnipcart.specs.Answers.{ExplainsChart};

// Every text of every length is explained. The refusal is returned; `cause` gets refusal, line and cause, the line, the first byte and the length of
// the place, one more line, and three numbers.
#[unsafe(no_mangle)]
pub extern "C" fn turnipcart_explain(text: &[u8], cause: &mut [usize; 10]) -> usize
    ensures { ExplainsChart text.now result cause.new }
{
    let x = explain::explain(text);
    let p = x.place;
    *cause = [
        x.refusal, x.line, x.cause, p.line, p.offset, p.length, x.other, x.first, x.second, x.third,
    ];
    x.refusal
}
