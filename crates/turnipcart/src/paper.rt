// A song copied flat, for paper.
ghost use Rattle.std.specs.Prelude.{◌≡◌};
ghost use Rattle.flat.specs.Answers.{copied_as};
ghost use Rattle.turnipcart.specs.Answers.{copied_in, CopiesChart};

use refusals::Refusal;

// Refusal and line, or the length of the copy.
fn numbers_of(answer: Result<usize, Refusal>) -> [usize; 3]
    ensures { copied_in result ≡ copied_as answer }
{
    match answer {
        Ok(length) => [0, 0, length],
        Err(refusal) => [usize::from(refusal.why), refusal.line, 0],
    }
}

// Every text of every length and every buffer is answered. The refusal is returned; `copied` gets refusal, line and the length of the
// copy, which stands at the beginning of `copy`.
#[unsafe(no_mangle)]
pub extern "C" fn turnipcart_flat(text: &[u8], copy: &mut [u8], copied: &mut [usize; 3]) -> usize
    ensures { CopiesChart text.now copy.old result copied.new copy.new }
{
    *copied = numbers_of(flat::flat_copy(text, copy));
    copied[0]
}
