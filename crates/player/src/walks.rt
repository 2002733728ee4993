// The walk along a row: measures, loops and references. Loops and references are the same walk one level down.
ghost use Rattle.std.specs.Prelude.{◌≡◌, ◌<◌};
ghost use Rattle.songcode.specs.Lists.{times};
ghost use Rattle.player.specs.Page.{Fine, SameTables, play, shown};
ghost use Rattle.player.specs.Again.{Took};
ghost use Rattle.player.specs.Walks.{finish, item_from, loop_from, ref_from, end_of, level_from, Within};

use super::again::{copied, copies, skipped, skips};
use super::leaves::{behind, passes};
use super::measures::{Scope, Walk, measure};
use super::pens::{Page, Pen};
use score::{stretch_of, word_at};
use tokens::{OPENS, REFERENCE, is_separator, is_stop, kind, number};

// Items up to the end of the text or a closing bracket.
#[cycle(again_item_items_jump_loop__once_more)]
pub fn items(s: Scope, from: Walk, page: &mut Page) -> Walk
    requires { Fine page.old.pen × Within s }
    ensures walk { end_of result page.new ≡ finish (level_from s.entry from) (shown page.old) }
    ensures tables { SameTables page.old page.new }
{
    let mut w = from;
    if s.depth == 0 {
        return w;
    }
    loop {
        if is_stop(kind(word_at(s.words, s.to, w.at))) {
            return w;
        }
        let inner = Scope {
            depth: s.depth - 1,
            ..s
        };
        w = item(inner, w, page);
    }
}

// One item, or one separator.
#[cycle(again_item_items_jump_loop__once_more)]
pub fn item(s: Scope, from: Walk, page: &mut Page) -> Walk
    requires { Fine page.old.pen × Within s × (from.at < 18446744073709551615) }
    ensures walk { end_of result page.new ≡ finish (item_from s.entry from) (shown page.old) }
    ensures tables { SameTables page.old page.new }
{
    let w = word_at(s.words, s.to, from.at);
    let k = kind(w);
    if k == OPENS {
        return loop_(s, from, page);
    }
    if k == REFERENCE {
        return jump(s, number(w), from, page);
    }
    if is_separator(k) {
        return Walk {
            at: from.at + 1,
            ..from
        };
    }
    measure(s, from, page)
}

// A reference: the items of a definition, one level down; then back to behind the reference.
#[cycle(again_item_items_jump_loop__once_more)]
pub fn jump(s: Scope, x: u32, from: Walk, page: &mut Page) -> Walk
    requires { Fine page.old.pen × Within s × (from.at < 18446744073709551615) }
    ensures walk { end_of result page.new ≡ finish (ref_from s.entry x from) (shown page.old) }
    ensures tables { SameTables page.old page.new }
{
    let text = stretch_of(s.words, x);
    let there = Scope { to: text.to, ..s };
    let start = Walk {
        at: text.from,
        ..from
    };
    let w = items(there, start, page);
    Walk {
        at: from.at + 1,
        ..w
    }
}

// The passes of the loop that opens at a place: the first finds its end and its count.
#[cycle(again_item_items_jump_loop__once_more)]
pub fn loop_(s: Scope, from: Walk, page: &mut Page) -> Walk
    requires { Fine page.old.pen × Within s × (from.at < 18446744073709551615) }
    ensures walk { end_of result page.new ≡ finish (loop_from s.entry from) (shown page.old) }
    ensures tables { SameTables page.old page.new }
{
    let start = Walk {
        at: from.at + 1,
        ..from
    };
    let before = page.pen;
    let w = items(s, start, page);
    again(s, start, before, passes(s.words, s.to, w.at), page);
    Walk {
        at: behind(s.words, s.to, w.at),
        ..w
    }
}

// The items that took the pen from `before` to where it is, k times more; nothing more is looked at once no measure is to be looked at.
#[cycle(again_item_items_jump_loop__once_more)]
pub fn again(s: Scope, start: Walk, before: Pen, k: usize, page: &mut Page)
    requires { Fine page.old.pen × Within s × Took (level_from s start).row before (shown page.old) }
    ensures played { shown page.new ≡ play (times k (level_from s.entry start).row) (shown page.old) }
    ensures tables { SameTables page.old page.new }
{
    if skips(before, page.pen, k) {
        page.pen = skipped(before, page.pen, k);
        return;
    }
    let mut last = before;
    for _pass in 0..k {
        if page.pen.todo == 0 {
            return;
        }
        let begun = page.pen;
        once_more(s, start, last, page);
        last = begun;
    }
}

// Once more: passed over, copied, or read again.
#[cycle(again_item_items_jump_loop__once_more)]
pub fn once_more(s: Scope, start: Walk, before: Pen, page: &mut Page)
    requires { Fine page.old.pen × Within s × Took (level_from s start).row before (shown page.old) }
    ensures played { shown page.new ≡ play (level_from s.entry start).row (shown page.old) }
    ensures tables { SameTables page.old page.new }
{
    if skips(before, page.pen, 1) {
        page.pen = skipped(before, page.pen, 1);
    } else if copies(before, page.pen) {
        copied(before, page);
    } else {
        items(s, start, page);
    }
}
