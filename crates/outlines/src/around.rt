// The numbers of the rows around the row at hand, outermost first, in a lent array: beyond its end nothing is kept.
ghost use Rattle.std.specs.Prelude.{◌≡◌, get_or, set};

pub fn keep(around: &mut [usize], level: usize, count: usize)
    ensures { around.new ≡ set around.old level count }
{
    if level < around.len() {
        around[level] = count;
    }
}

pub fn kept(around: &[usize], level: usize) -> usize
    ensures { result ≡ get_or around.now level 0 }
{
    around.get(level).copied().unwrap_or(0)
}
