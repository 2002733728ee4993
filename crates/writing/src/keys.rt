// The keys table: its words stand in the row behind the sections.
ghost use Rattle.std.specs.Prelude.{◌≡◌, ◌+◌, ◌≤◌, length, take, drop};
ghost use Rattle.std.proofs.lemmas.List.Edits.{sets};

use packing::KEYS;

// The words from a place of the row on.
pub fn write_keys(words: &[u32], at: usize, keys: &mut [u32])
    requires { (at + 8 ≤ length words.now) × (8 ≤ length keys.old) }
    ensures { keys.new ≡ sets keys.old 0 (take 8 (drop at words.now)) }
{
    keys[..KEYS].copy_from_slice(&words[at..at + KEYS]);
}
