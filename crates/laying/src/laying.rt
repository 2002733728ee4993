// Pattern text into the buffer of token words: the lines of a run, a lead-in or tail.
ghost use Rattle.std.specs.Prelude.{◌≡◌, ◌+◌, ◌≤◌, length};
ghost use Rattle.std.proofs.lemmas.List.Edits.{sets};
ghost use Rattle.tokens.specs.TokenWords.{token_words};
ghost use Rattle.tokens.specs.Kept.{KeptFrom};
ghost use Rattle.sections.specs.Runs.{lines_of};
ghost use Rattle.sections.specs.BlockParts.{Placed};
ghost use Rattle.sections.specs.Slots.{Inside, setting_at};
ghost use Rattle.laying.specs.Laying.{run_tokens, said_tokens, weight, said_weight};

use sections::{Run, Said};
use text::line_at;
use tokens::{end_line, lay_line, lex_line};

// The words of the lines of a run from n on, a line end between neighbours; the new fill is returned. What is kept of a line is copied.
pub fn lay_run(s: &[u8], run: Run, words: &mut [u32], n: usize) -> usize
    requires { Placed s.now run × (length s.now ≤ 65536) × (n + weight (lines_of s.now run) ≤ length words.old)
        × KeptFrom s.now words.old n }
    ensures held { words.new ≡ sets words.old n (token_words (run_tokens (lines_of s.now run))) }
    ensures fill { result ≡ n + length (token_words (run_tokens (lines_of s.now run))) }
{
    if run.lines == 0 {
        return n;
    }
    let first = line_at(s, run.number, run.at);
    let mut fill = lay_line(s, first.start, first.stop, words, n);
    let mut line = run.number + 1;
    let mut at = first.next;
    for _ in 1..run.lines {
        if at == s.len() {
            break;
        }
        let found = line_at(s, line, at);
        let begun = end_line(words, fill);
        fill = lay_line(s, found.start, found.stop, words, begun);
        line += 1;
        at = found.next;
    }
    fill
}

// The words of a lead-in or tail, if there is one.
pub fn lay_said(s: &[u8], said: Option<Said>, words: &mut [u32], n: usize) -> usize
    requires { Inside s.now said × (length s.now ≤ 65536) × (n + said_weight (setting_at s.now said) ≤ length words.old) }
    ensures held { words.new ≡ sets words.old n (token_words (said_tokens (setting_at s.now said))) }
    ensures fill { result ≡ n + length (token_words (said_tokens (setting_at s.now said))) }
{
    match said {
        Some(x) => lex_line(s, x.start, x.stop, words, n),
        None => n,
    }
}
