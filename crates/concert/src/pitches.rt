// A base chord moved: its root plus a signed number of semitones, by its sharp name.
ghost use Rattle.std.specs.Prelude.{◌≡◌, true, ◌<◌};
ghost use Rattle.concert.specs.Pitches.{is_allowed, moved_root, moved_base};

// Semitones in an octave.
const OCTAVE: i32 = 12;

// The roots of the base chords as they are numbered, in semitones from C; an octave more where the chord is minor.
const ROOTS: [u8; 34] = [
    9, 10, 8, 21, 22, 20, 11, 10, 23, 22, 0, 1, 12, 13, 2, 1, 3, 14, 13, 15, 4, 3, 16, 15, 5, 6,
    17, 18, 7, 6, 8, 19, 18, 20,
];

// The numbers of the sharp names, by semitones from C: major chords, minor chords.
const MAJORS: [u32; 12] = [10, 11, 14, 16, 20, 24, 25, 28, 30, 0, 1, 6];

const MINORS: [u32; 12] = [12, 13, 17, 19, 22, 26, 27, 31, 33, 3, 4, 8];

// Moves from -11 to 20 semitones are allowed.
pub fn is_allowed(shift: i32) -> bool
    ensures { result ≡ is_allowed shift }
{
    (-11..=20).contains(&shift)
}

// A root plus a signed shift, reduced into 0 to 11.
fn moved_root(root: u8, shift: i32) -> usize
    requires root_bound { root < 12 }
    requires shift_value { is_allowed shift ≡ true }
    ensures value { result ≡ moved_root shift root }
    ensures bound { result < 12 }
{
    let moved = i32::from(root) + shift;
    moved.rem_euclid(OCTAVE) as usize
}

// The number of the base that a base comes to.
pub fn moved_base(base: usize, shift: i32) -> u32
    requires base_bound { base < 34 }
    requires shift_value { is_allowed shift ≡ true }
    ensures { result ≡ moved_base shift base }
{
    let root = ROOTS[base];
    if root < 12 {
        MAJORS[moved_root(root, shift)]
    } else {
        MINORS[moved_root(root - 12, shift)]
    }
}
