// What a section of the row plays.
ghost use Rattle.std.specs.Prelude.{◌≡◌};
ghost use Rattle.player.specs.Arrangements.{arrangement_in};

use super::playing::Arrangement;
use score::{View, played_text};

// Its lead-in, pattern and tail in its N, with its repeats and cuts; a pattern that names a definition plays the definition's words.
#[tactic(auto, unfolding(crate::specs::Arrangements::arrangement_in))]
pub fn arrangement_in(words: &[u32], v: View) -> Arrangement
    ensures { result ≡ arrangement_in words.now v }
{
    Arrangement {
        n: v.meter,
        lead: v.lead,
        pattern: played_text(words, v.pattern),
        tail: v.tail,
        repeat: v.repeat,
        front: v.front,
        back: v.back,
        even: v.even,
    }
}
