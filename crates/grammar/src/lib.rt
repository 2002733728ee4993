// Pattern text against the rules: a small state by value, stepped by the words of its tokens.
#![tactic(auto)]

mod checks;
mod kept;
mod kinds;
mod sides;
mod verdicts;

ghost use Rattle.std.specs.Prelude.{◌≡◌, ◌≤◌, length};
ghost use Rattle.songcode.specs.Bytes.{placed};
ghost use Rattle.text.specs.Spans.{part};
ghost use Rattle.grammar.specs.declared.kinds.Kind.TheVariants.{LineEnd};
ghost use Rattle.grammar.specs.Kinds.{word_kind};
ghost use Rattle.grammar.specs.Checks.{check_step, check_text};

pub use checks::{Check, Place, is_bad, start, step_kind};
pub use kept::check_kept;
pub use kinds::Kind;
use kinds::kind_of;
pub use sides::side_fine;
use tokens::next_token;
pub use verdicts::{definition_fine, is_alone, section_fine};

// The check behind one more token, given by its word.
pub fn step_check(c: Check, word: u32) -> Check
    ensures { result ≡ check_step c (word_kind word) }
{
    step_kind(c, kind_of(word))
}

// The check where a line ends and another one follows.
pub fn line_between(c: Check) -> Check
    ensures { result ≡ check_step c LineEnd }
{
    step_kind(c, Kind::LineEnd)
}

// The check behind the tokens of a line.
fn check_line(s: &[u8], from: usize, to: usize, c: Check) -> Check
    requires { (from ≤ to) × (to ≤ length s.now) × (to ≤ 65536) }
    ensures { result ≡ check_text c (placed from (part from to s.now)) }
{
    let mut check = c;
    let mut at = from;
    while let Some(token) = next_token(s, at, to) {
        check = step_check(check, token.word);
        at = token.next;
    }
    check
}
