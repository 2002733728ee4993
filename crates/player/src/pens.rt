// One small value, the pen, carries everything while beats and measures are written.
ghost use Rattle.std.specs.Prelude.{◌≡◌, ℕ, ◌+◌, ◌-◌, ◌<◌, ◌≤◌, List, replicate, slice_set};
ghost use Rattle.player.specs.Signs.{lasting_of};
ghost use Rattle.player.specs.Page.{Ink, page, Fine, beat_of, inked, closed, rest_of};

use super::heard::Sound;
use packing::{head_word, measure_word};

// todo: measures still to be looked at; skip: beats still to be passed over; left: beats still to be written;
// m, b: measures and beats written; base: the place of beat 0 in the song's table.
#[derive(Clone, Copy)]
pub struct Pen {
    pub base: usize,
    pub todo: usize,
    pub skip: usize,
    pub left: usize,
    pub m: usize,
    pub b: usize,
}

// The two tables that a section is played into, and the pen that plays it there.
#[derive(Drop)]
pub struct Page<'a> {
    pub pen: Pen,
    pub measures: &'a mut [u32],
    pub beats: &'a mut [u32],
}

// A word into a table; nothing past its end.
pub fn store(t: &mut [u32], i: usize, v: u32)
    ensures { t.new ≡ slice_set t.old i v }
{
    if i < t.len() {
        t[i] = v;
    }
}

pub fn beat(p: Pen, w: u32, bs: &mut [u32]) -> Pen
    requires { Fine p }
    ensures { ◌≡◌ {A = Ink} (record { pen = result; bs = bs.new }) (beat_of w (record { pen = p; bs = bs.old })) }
{
    if 0 < p.skip {
        return Pen {
            skip: p.skip - 1,
            ..p
        };
    }
    if p.left == 0 {
        return p;
    }
    store(bs, p.b, w);
    Pen {
        left: p.left - 1,
        b: p.b + 1,
        ..p
    }
}

// A beat n times.
pub fn fill(n: usize, w: u32, p: Pen, bs: &mut [u32]) -> Pen
    requires { Fine p }
    ensures { ◌≡◌ {A = Ink} (record { pen = result; bs = bs.new }) (inked (replicate n w) (record { pen = p; bs = bs.old })) }
{
    let mut q = p;
    for _beat in 0..n {
        q = beat(q, w, bs);
    }
    q
}

// The beats of a sound: the first has the head.
#[tactic(auto, using(crate::proofs::PageLaws::lasting_ways))]
pub fn lasting(share: usize, v: Sound, p: Pen, bs: &mut [u32]) -> Pen
    requires { Fine p }
    ensures { ◌≡◌ {A = Ink} (record { pen = result; bs = bs.new }) (inked (lasting_of share v.word) (record { pen = p; bs = bs.old })) }
{
    if share == 0 {
        return p;
    }
    let q = beat(p, head_word(v.word), bs);
    fill(share - 1, v.word, q, bs)
}

// The word of a measure of which beats were written.
#[tactic(auto, using(crate::proofs::PageLaws::close_ways))]
pub fn close(from: usize, p: Pen, ms: &mut [u32]) -> Pen
    requires { Fine p × (p.m ≤ from) × (from ≤ p.b) × (p.b ≤ from + 63) }
    ensures { (bs : List ℕ) → page result ms.new bs ≡ closed from (page p ms.old bs) }
{
    if from == p.b {
        return p;
    }
    store(ms, p.m, measure_word(p.base + from, p.b - from));
    Pen { m: p.m + 1, ..p }
}

// No measure is looked at any more once no beat is to be passed over and none to be written.
#[tactic(auto, using(crate::proofs::PageLaws::rest_ways))]
pub fn resting(p: Pen) -> Pen
    ensures { result ≡ rest_of p }
{
    if p.skip == 0 && p.left == 0 {
        Pen { todo: 0, ..p }
    } else {
        p
    }
}
