// Numbers of measures, positions and levels, each with the most that an outline tells.
ghost use Rattle.std.specs.Prelude.{◌≡◌, ◌+◌, ◌*◌, min};

// An outline tells measures up to 65,536, positions of a measure up to 33, which fit no N, and loops up to 7 deep.
const MEASURES_TOLD: usize = 65536;

const POSITIONS_TOLD: usize = 33;

const DEPTH_TOLD: usize = 7;

// Measures behind others.
pub fn capped_sum(a: usize, b: usize) -> usize
    ensures { result ≡ min 65536 (a + b) }
{
    a.saturating_add(b).min(MEASURES_TOLD)
}

// Measures that are played so many times.
pub fn capped_times(n: u32, a: usize) -> usize
    ensures { result ≡ min 65536 (n * a) }
{
    a.saturating_mul(n as usize).min(MEASURES_TOLD)
}

// One more position.
pub fn one_more(p: usize) -> usize
    ensures { result ≡ min 33 (p + 1) }
{
    p.min(POSITIONS_TOLD - 1) + 1
}

// One loop further in.
pub fn inner_level(level: usize) -> usize
    ensures { result ≡ min 7 (level + 1) }
{
    level.min(DEPTH_TOLD - 1) + 1
}
