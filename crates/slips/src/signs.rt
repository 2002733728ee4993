// The tokens of a line, one behind the other, and the number that a pattern names.
ghost use Rattle.std.specs.Prelude.{◌≡◌, ◌+◌, ◌<◌, ◌≤◌, length, MatchOption};
ghost use Rattle.sections.specs.Runs.{lines_of};
ghost use Rattle.slips.specs.Marks.{named_in};
ghost use Rattle.slips.specs.Taken.{Takes};

use sections::Run;
use text::{front_blanks, line_at};
use tokens::{REFERENCE, kind, next_token, number};

// A token: its word, the place of its first byte, and the place behind its last.
#[derive(Clone, Copy)]
pub struct Token {
    pub word: u32,
    pub from: usize,
    pub next: usize,
}

// The first token from a place on.
pub fn token_from(s: &[u8], at: usize, to: usize) -> Option<Token>
    requires { (at ≤ to) × (to ≤ length s.now) × (to ≤ 65536) }
    ensures inside { MatchOption result (at ≤ to) (λ t. (at ≤ t.from) × (t.from < t.next) × (t.next ≤ to)) }
    ensures takes { Takes s.now at to result }
{
    let lexed = next_token(s, at, to)?;
    Some(Token {
        word: lexed.word,
        from: at + front_blanks(&s[at..lexed.next]),
        next: lexed.next,
    })
}

// The number that a section's pattern names, 0 where it names none.
pub fn named_number(s: &[u8], run: Run) -> usize
    requires { (run.at ≤ length s.now) × (length s.now ≤ 65536) }
    ensures { result ≡ named_in (lines_of s.now run) }
{
    if run.lines == 0 {
        return 0;
    }
    let first = line_at(s, run.number, run.at);
    let Some(t) = token_from(s, first.start, first.stop) else {
        return 0;
    };
    if kind(t.word) == REFERENCE {
        number(t.word) as usize
    } else {
        0
    }
}
