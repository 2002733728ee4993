// The names of modifiers, and how often one repeats.
ghost use Rattle.std.specs.Prelude.{◌≡◌};
ghost use Rattle.songcode.specs.Bytes.{placed};
ghost use Rattle.songcode.specs.Answer.Modifiers.{modifier_named};
ghost use Rattle.songcode.specs.Answer.Numbers.{repeat_in};
ghost use Rattle.tokens.specs.Decimals.{number_of};
ghost use Rattle.settings.specs.Names.{modifier_is};

use super::parts::if_named;
use text::byte_at;
use tokens::number_in;

#[derive(Clone, Copy, PartialEq, Eq)]
pub enum ModifierName {
    Repeat,
    CutStart,
    CutEnd,
    Before,
    After,
}

// The sixth byte tells the names apart; only `after` has none.
pub fn modifier_named(w: &[u8]) -> Option<ModifierName>
    ensures { result ≡ modifier_is (modifier_named (placed 0 w.now)) }
{
    match byte_at(w, 5) {
        b't' => if_named(b"repeat", w, ModifierName::Repeat),
        b'a' => if_named(b"cutStart", w, ModifierName::CutStart),
        b'd' => if_named(b"cutEnd", w, ModifierName::CutEnd),
        b'e' => if_named(b"before", w, ModifierName::Before),
        _ => if_named(b"after", w, ModifierName::After),
    }
}

// A repeat count is 2 to 9,999.
pub fn repeat_in(w: &[u8]) -> Option<usize>
    ensures { result ≡ number_of (repeat_in (placed 0 w.now)) }
{
    number_in(2, 9999, w)
}
