// The first two stages, up to the one that refuses.
ghost use Rattle.std.specs.Prelude.{◌+◌, ◌≤◌, length};
ghost use Rattle.tokens.specs.Kept.{Unmarked};
ghost use Rattle.judging.specs.Stages.{Passes};

use refusals::Refusal;
use stage2::stage_two;
use text::judge_input;

// Stages 1 and 2; where they refuse nothing, the tokens of pattern lines are kept in the row.
pub fn first_stages(s: &[u8], words: &mut [u32]) -> Result<(), Refusal>
    requires { (length s.now ≤ 65536 → length s.now + 16 ≤ length words.old) × Unmarked words.old }
    ensures { Passes s.now words.new result }
{
    if let Some(refusal) = judge_input(s) {
        return Err(refusal);
    }
    match stage_two(s, words) {
        Some(refusal) => Err(refusal),
        None => Ok(()),
    }
}
