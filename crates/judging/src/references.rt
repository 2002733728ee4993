// Stage 3 of a section: a pattern that names a definition which is not there.
ghost use Rattle.std.specs.Prelude.{◌≡◌};
ghost use Rattle.judging.specs.References.{name_fault};

use outlines::is_missing;
use refusals::{Refusal, Why};

// What is wrong with the number that a section's pattern names; 0 is none.
pub fn name_fault(words: &[u32], named: u32, header: usize) -> Option<Refusal>
    ensures { result ≡ name_fault words.now named header }
{
    if named != 0 && is_missing(words, named) {
        return Some(Refusal {
            why: Why::ReferenceUndefined,
            line: header,
        });
    }
    None
}
