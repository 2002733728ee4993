// A text in the row: the stretch of its token words, those words, and the word at a place of it. All are safe on every content.
ghost use Rattle.std.specs.Prelude.{◌≡◌, take, drop};
ghost use Rattle.score.specs.Places.{word_of};

use tokens::WRONG_WORD;

// The words from one place on and before another.
#[derive(Clone, Copy)]
pub struct Stretch {
    pub from: usize,
    pub to: usize,
}

impl Stretch {
    // The words that stand there; of a row that ends before them none.
    pub fn words(self, row: &[u32]) -> &[u32]
        ensures { result.now ≡ drop self.from (take self.to row.now) }
    {
        let end = self.to.min(row.len());
        &row[self.from.min(end)..end]
    }
}

// The word at a place of the text that ends before `to`; past the end a wrong word, that of no token.
#[tactic(auto, using(std::proofs::lemmas::List::take_min), unfolding(crate::specs::Places::word_of))]
pub fn word_at(words: &[u32], to: usize, at: usize) -> u32
    ensures { result ≡ word_of words.now to at }
{
    let text = &words[..to.min(words.len())];
    text.get(at).copied().unwrap_or(WRONG_WORD)
}
