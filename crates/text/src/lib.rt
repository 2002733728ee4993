// The text of a chart: its bytes, its characters, its lines, and what stage 1 says of it.
#![tactic(auto)]

mod characters;
mod ends;
mod lines;

ghost use Rattle.std.specs.Prelude.{◌≡◌, get_or};
ghost use Rattle.songcode.specs.Complaints.{earliest};
ghost use Rattle.songcode.specs.Answer.Answer.{input_faults};
ghost use Rattle.refusals.specs.Refusals.{told};

pub use characters::{Lead, good_bytes, is_tail};
pub use ends::line_of;
pub use lines::{Line, front_blanks, is_blank, line_at, line_start, past_blank, solid_len};
use refusals::{Refusal, Why};

// The byte at i, or 0 past the end.
pub fn byte_at(s: &[u8], i: usize) -> u8
    ensures { result ≡ get_or s.now i 0 }
{
    s.get(i).copied().unwrap_or(0)
}

// Stage 1: "over 65,536 bytes", "bad UTF-8 or zero byte".
pub fn judge_input(s: &[u8]) -> Option<Refusal>
    ensures { told result ≡ earliest (input_faults s.now) }
{
    if 65536 < s.len() {
        return Some(Refusal {
            why: Why::TextTooLong,
            line: 0,
        });
    }
    let good = good_bytes(s);
    if good < s.len() {
        return Some(Refusal {
            why: Why::BadText,
            line: line_of(s, good),
        });
    }
    None
}
