// The kinds of lines and blocks, and the head of a definition.
ghost use Rattle.std.specs.Prelude.{◌≡◌};
ghost use Rattle.songcode.specs.Bytes.{placed, is};
ghost use Rattle.songcode.specs.Answer.Sections.{kind_of, behind_first};
ghost use Rattle.songcode.specs.Answer.Numbers.{count_in};
ghost use Rattle.songcode.specs.Answer.SongText.{kind_of_text};
ghost use Rattle.tokens.specs.Decimals.{number_of};
ghost use Rattle.settings.specs.Kinds.{letter, kind_is, block_kind_is};

use super::parts::same_text;
use text::byte_at;
use tokens::number_in;

// A line between the header and the `--`.
#[derive(Clone, Copy, PartialEq, Eq)]
pub enum Kind {
    Key,
    Modifier,
    Pattern,
}

// A block, by its first line.
#[derive(Clone, Copy, PartialEq, Eq)]
pub enum BlockKind {
    Metadata,
    Definition,
    Section,
}

// An ASCII letter.
fn is_letter(b: u8) -> bool
    ensures { result ≡ letter b }
{
    b.is_ascii_alphabetic()
}

pub fn kind_of(w: &[u8]) -> Kind
    ensures { result ≡ kind_is (kind_of (placed 0 w.now)) }
{
    match byte_at(w, 0) {
        b'@' => Kind::Key,
        b'_' if is_letter(byte_at(w, 1)) => Kind::Modifier,
        _ => Kind::Pattern,
    }
}

pub fn block_kind(w: &[u8]) -> BlockKind
    ensures { result ≡ block_kind_is (kind_of_text (placed 0 w.now)) }
{
    match byte_at(w, 0) {
        b'@' => BlockKind::Metadata,
        b'$' => BlockKind::Definition,
        _ => BlockKind::Section,
    }
}

// The line that parts a section's lyrics from what stands before them.
pub fn is_dashes(w: &[u8]) -> bool
    ensures { result ≡ is "--" (placed 0 w.now) }
{
    same_text(b"--", w)
}

// The number of a definition, behind the `$` of its head.
pub fn head_in(w: &[u8]) -> Option<usize>
    ensures { result ≡ number_of (count_in (behind_first (placed 0 w.now))) }
{
    number_in(1, 9999, w.get(1..)?)
}
