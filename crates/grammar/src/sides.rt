// Lead-ins and tails: "one line, not empty, without `:` and `$`".
ghost use Rattle.std.specs.Prelude.{◌≡◌, ◌≤◌, length};
ghost use Rattle.songcode.specs.Lists.{is_some};
ghost use Rattle.songcode.specs.Bytes.{placed};
ghost use Rattle.songcode.specs.Answer.PatternText.{side_text};
ghost use Rattle.text.specs.Spans.{part};
ghost use Rattle.grammar.specs.Sides.{barred_byte, any_barred};

use super::verdicts::unnamed_fine;
use super::{check_line, start};

fn is_barred(b: u8) -> bool
    ensures { result ≡ barred_byte b }
{
    matches!(b, b':' | b'$')
}

fn has_barred(s: &[u8], from: usize, to: usize) -> bool
    requires { (from ≤ to) × (to ≤ length s.now) }
    ensures { result ≡ any_barred s.now from to }
{
    s[from..to].iter().any(|b| is_barred(*b))
}

// The text of a lead-in or tail.
pub fn side_fine(s: &[u8], from: usize, to: usize) -> bool
    requires { (from ≤ to) × (to ≤ length s.now) × (to ≤ 65536) }
    ensures { result ≡ is_some (side_text (placed from (part from to s.now))) }
{
    !has_barred(s, from, to) && unnamed_fine(check_line(s, from, to, start()))
}
