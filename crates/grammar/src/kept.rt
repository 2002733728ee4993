// The check of a line by the words of its tokens, which are kept in the row.
ghost use Rattle.std.specs.Prelude.{◌≡◌, ◌+◌, ◌≤◌, length};
ghost use Rattle.songcode.specs.Bytes.{placed};
ghost use Rattle.text.specs.Spans.{part};
ghost use Rattle.tokens.specs.TokenWords.{token_words};
ghost use Rattle.tokens.specs.Lexing.{tokens_from};
ghost use Rattle.tokens.specs.Kept.{kept};
ghost use Rattle.grammar.specs.Checks.{check_text, check_words};

use super::{Check, step_check};
use tokens::keep_line;

// How far behind the place of a line's first byte its words stand.
const WORDS: usize = 9;

// The check behind the words of a part of a row.
fn check_words(words: &[u32], from: usize, to: usize, c: Check) -> Check
    requires { (from ≤ to) × (to ≤ length words.now) }
    ensures { result ≡ check_words c (part from to words.now) }
{
    let mut check = c;
    for word in &words[from..to] {
        check = step_check(check, *word);
    }
    check
}

// The check behind the tokens of a line, whose words are kept.
pub fn check_kept(s: &[u8], from: usize, to: usize, words: &mut [u32], c: Check) -> Check
    requires { (from ≤ to) × (to ≤ length s.now) × (to ≤ 65536) × (to + 9 ≤ length words.old) }
    ensures check { result ≡ check_text c (placed from (part from to s.now)) }
    ensures held { words.new ≡ kept from (token_words (tokens_from from to s.now)) words.old }
{
    let count = keep_line(s, from, to, words);
    let first = from + WORDS;
    check_words(words, first, first + count, c)
}
