// A pass of a loop done again without reading its words: it was passed over, or written whole, and will be.
ghost use Rattle.std.specs.Prelude.{◌≡◌, ◌+◌, ◌-◌, ◌*◌, ◌<◌, ◌≤◌, true};
ghost use Rattle.player.specs.Page.{Fine, SameTables};
ghost use Rattle.player.specs.Again.{Skips, Copies, skipped_of, copied_of, copy_of, same, later};

use super::pens::{Page, Pen};
use packing::BEAT_LATER;

// Whether the pass that took the pen from `p` to `q` was passed over as a whole, and k more will be.
// Past 65,536 measures, 2^32 - 1 beats or 2^26 passes it is not asked, so that the products fit.
pub fn skips(p: Pen, q: Pen, k: usize) -> bool
    ensures { result ≡ true → Skips p q k }
{
    let measures = p.todo.saturating_sub(q.todo);
    let beats = p.skip.saturating_sub(q.skip);
    0 < q.todo
        && 0 < q.skip
        && k <= 67108864
        && measures <= 65536
        && beats <= 4294967295
        && k * measures <= q.todo
        && k * beats < q.skip
}

// The pen behind k more passes that are passed over.
#[tactic(auto, unfolding(crate::specs::Again::skipped_of))]
pub fn skipped(p: Pen, q: Pen, k: usize) -> Pen
    requires { Skips p q k }
    ensures { result ≡ skipped_of p q k }
{
    Pen {
        todo: q.todo - k * p.todo.saturating_sub(q.todo),
        skip: q.skip - k * p.skip.saturating_sub(q.skip),
        ..q
    }
}

// Whether the pass that took the pen from `p` to `q` was written whole, and one more will be.
pub fn copies(p: Pen, q: Pen) -> bool
    ensures { result ≡ true → Copies p q }
{
    let measures = p.todo.saturating_sub(q.todo);
    let beats = q.b.saturating_sub(p.b);
    p.skip == 0 && 0 < q.todo && measures <= q.todo && beats < q.left
}

// The words from one place on and before another, again behind them, as far as the table goes.
pub fn copy(t: &mut [u32], from: usize, to: usize)
    requires { from ≤ to }
    ensures { t.new ≡ copy_of same t.old from to }
{
    if to < t.len() {
        let n = (to - from).min(t.len() - to);
        t.copy_within(from..from + n, to);
    }
}

// The same with so much added to each.
pub fn copy_later(t: &mut [u32], from: usize, to: usize, step: u32)
    requires { from ≤ to }
    ensures { t.new ≡ copy_of (later step) t.old from to }
{
    let n = (to - from).min(t.len().saturating_sub(to));
    for i in 0..n {
        t[to + i] = t[from + i].wrapping_add(step);
    }
}

// One more pass, written whole, behind that which took the pen from `p`; its measures begin so many beats later.
#[tactic(auto, unfolding(crate::specs::Again::copied_of))]
pub fn copied(p: Pen, page: &mut Page)
    requires { Fine page.old.pen × Copies p page.old.pen × (p.m ≤ page.old.pen.m) × (p.b ≤ page.old.pen.b) }
    ensures pen { page.new.pen ≡ copied_of p page.old.pen }
    ensures measures { page.new.measures.now
        ≡ copy_of (later ((page.old.pen.b - p.b) * 2048)) page.old.measures.now p.m page.old.pen.m }
    ensures beats { page.new.beats.now ≡ copy_of same page.old.beats.now p.b page.old.pen.b }
    ensures tables { SameTables page.old page.new }
{
    let q = page.pen;
    let beats = q.b - p.b;
    copy_later(page.measures, p.m, q.m, (beats * BEAT_LATER) as u32);
    copy(page.beats, p.b, q.b);
    page.pen = Pen {
        todo: q.todo - p.todo.saturating_sub(q.todo),
        left: q.left - beats,
        m: q.m + (q.m - p.m),
        b: q.b + beats,
        ..q
    };
}
