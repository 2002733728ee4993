// The tokens of a line kept in the row where stage 2 reads them, and laid from there: no line is lexed twice.
ghost use Rattle.std.specs.Prelude.{◌≡◌, ◌+◌, ◌-◌, ◌≤◌, length, take, drop};
ghost use Rattle.std.proofs.lemmas.List.Edits.{sets};
ghost use Rattle.tokens.specs.TokenWords.{token_words};
ghost use Rattle.tokens.specs.Lexing.{tokens_from};
ghost use Rattle.tokens.specs.Kept.{line_stop, kept, KeptFrom};

use super::lexing::lex_line;
use super::signs::{KIND, kind, number};

// The kind of a mark, which no token has, and how far behind a line's first byte its mark stands.
const KEPT: u32 = 53;

const MARKED: usize = 8;

// The words of a line's tokens, kept behind a mark with their number.
pub fn keep_line(s: &[u8], start: usize, stop: usize, words: &mut [u32]) -> usize
    requires { (start ≤ stop) × (stop ≤ length s.now) × (stop ≤ 65536) × (stop + 9 ≤ length words.old) }
    ensures held { words.new ≡ kept start (token_words (tokens_from start stop s.now)) words.old }
    ensures count { (result ≡ length (token_words (tokens_from start stop s.now))) × (result ≤ stop - start) }
{
    let from = start + MARKED + 1;
    let end = lex_line(s, start, stop, words, from);
    let count = end - from;
    words[start + MARKED] = KEPT * KIND + count as u32;
    count
}

// Some words laid again further in front, the first of them first.
fn move_words(words: &mut [u32], from: usize, count: usize, to: usize)
    requires { (to ≤ from) × (from + count ≤ length words.old) }
    ensures { words.new ≡ sets words.old to (take count (drop from words.old)) }
{
    words.copy_within(from..from + count, to);
}

// The words of a line's tokens, laid into the buffer from n on, as `lex_line` lays them: those that are kept, where they are not laid over yet.
pub fn lay_line(s: &[u8], start: usize, stop: usize, words: &mut [u32], n: usize) -> usize
    requires start_le_stop { (start ≤ stop) × (stop ≤ length s.now) × (stop ≤ 65536) × (n + (stop - start) ≤ length words.old) }
    requires kept { (stop ≡ line_stop s.now start) × KeptFrom s.now words.old n }
    ensures held { words.new ≡ sets words.old n (token_words (tokens_from start stop s.now)) }
    ensures fill { (result ≡ n + length (token_words (tokens_from start stop s.now))) × (result ≤ n + (stop - start)) }
{
    let mark = words[start + MARKED];
    if kind(mark) != KEPT || start + MARKED < n {
        return lex_line(s, start, stop, words, n);
    }
    let count = number(mark) as usize;
    move_words(words, start + MARKED + 1, count, n);
    n + count
}
