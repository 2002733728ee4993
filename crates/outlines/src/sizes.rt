// The numbers of positions of a text's measures, kept as the least number that all of them divide: 33 where that is more than 32.
ghost use Rattle.std.specs.Prelude.{◌≡◌};
ghost use Rattle.outlines.specs.Sizes.{divides, common_by, joined};

// No N up to 32 fits these sizes.
const UNFIT: usize = 33;

// Whether a text of these sizes fits an N of at most 32; 0 fits 0 alone.
#[tactic(auto, unfolding(crate::specs::Sizes::divides))]
pub fn sizes_fit(sizes: usize, n: usize) -> bool
    ensures { result ≡ divides sizes n }
{
    n.is_multiple_of(sizes)
}

// The least number up to 32 that both divide, else 33.
pub fn common(a: usize, b: usize) -> usize
    ensures { result ≡ common_by 32 1 a b }
{
    (1..UNFIT)
        .find(|m| sizes_fit(a, *m) && sizes_fit(b, *m))
        .unwrap_or(UNFIT)
}

// The sizes with one more.
#[tactic(auto, unfolding(crate::specs::Sizes::joined))]
pub fn join(sizes: usize, p: usize) -> usize
    ensures { result ≡ joined sizes p }
{
    if UNFIT <= sizes || sizes_fit(p, sizes) {
        sizes
    } else {
        common(sizes, p)
    }
}
