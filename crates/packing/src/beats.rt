// The word of a beat: base 6, extension offset 16, length 5, head 1, and four bits not named.
ghost use Rattle.std.specs.Prelude.{◌≡◌, ◌+◌, ◌-◌, ◌*◌, ◌/◌, ◌%◌, ◌^◌, ◌<◌};

// The base of silence.
pub const SILENCE: u32 = 63;

// What stands behind the base.
const BEHIND: u32 = 1 << 26;

// The bits not named.
const SPARE: u32 = 1 << 4;

const HEAD: u32 = 1 << 4;

pub fn beat_base(word: u32) -> u32
    ensures { result ≡ word / 2 ^ 26 }
{
    word / BEHIND
}

// What the bits hold that are not named.
pub fn beat_spare(word: u32) -> u32
    ensures { result ≡ word % 2 ^ 4 }
{
    word % SPARE
}

// The word with another base, all else as it was.
pub fn with_base(word: u32, base: u32) -> u32
    requires { base < 64 }
    ensures { result ≡ base * 2 ^ 26 + word % 2 ^ 26 }
{
    base * BEHIND + word % BEHIND
}

// The word of a beat that is held, as its sound's head.
pub fn head_word(held: u32) -> u32
    requires { held < 2 ^ 32 - 2 ^ 4 }
    ensures { result ≡ held + 2 ^ 4 }
{
    held + HEAD
}
