// Slips in counts and lengths: refusals 14 to 17.
ghost use Rattle.std.specs.Prelude.{◌+◌, ◌≤◌, ◌<◌, ◌≡◌, length, get_or, MatchOption};
ghost use Rattle.slips.specs.Standing.{LineIn, Counted};
ghost use Rattle.slips.specs.Finds.{NameOn, BareOn};

use super::blocks::name_stop;
use super::keys::whole_line;
use super::references::{Known, known_before, known_of};
use super::signs::named_number;
use super::slip::{Slip, at_place, no_slip};
use super::spots::Spot;
use super::survey::block_behind;
use refusals::Why;
use sections::{Place, Run, section_parts};
use settings::lyric_words;
use text::{Line, is_blank, line_at};
use tokens::number_in;

// The clauses of refusal 15.
const CUTS_TAKE_ALL: usize = 1;

const MODIFIER_ON_EMPTY: usize = 2;

// The clauses of refusal 16.
const COUNT_MISSING: usize = 1;

const COUNT_WRONG: usize = 2;

const COUNT_TIGHT: usize = 3;

const COUNT_ALONE: usize = 4;

// The name in a header.
pub fn header_name(clause: usize, s: &[u8], l: Line) -> Slip
    requires { LineIn s.now l }
    ensures { (result.clause ≡ clause) × NameOn s.now l result.from result.to }
{
    at_place(clause, l.start, name_stop(s, l.start, l.stop))
}

// Whether a section's pattern is empty: it names a definition without lines.
fn is_empty(s: &[u8], known: &[Known], pattern: Run) -> bool
    requires { (pattern.at ≤ length s.now) × (length s.now ≤ 65536) }
{
    known_of(known, named_number(s, pattern)) == Known::Empty
}

// Refusal 15.
pub fn cut_slip(s: &[u8], p: Spot) -> Slip
    requires { LineIn s.now p.line × Counted p.block × (length s.now ≤ 65536) }
{
    if s.len() <= p.block.at {
        return no_slip();
    }
    let parts = section_parts(s, p.block.number, p.block.at);
    let known = known_before(s, p.block.at, Why::ReferenceKind);
    if is_empty(s, &known, parts.pattern) {
        let late = parts.late;
        return whole_line(
            MODIFIER_ON_EMPTY,
            line_at(s, late.number, late.at),
            p.block.number,
        );
    }
    header_name(CUTS_TAKE_ALL, s, p.line)
}

// Where the last word begins: behind the last blank.
fn last_word(s: &[u8], a: usize, e: usize) -> usize
    requires { (a ≤ e) × (e ≤ length s.now) }
    ensures { (a ≤ result) × (result ≤ e) }
{
    match s[a..e].iter().rposition(|b| is_blank(*b)) {
        Some(i) => a + i + 1,
        None => a,
    }
}

// Where the last `_` stands.
fn last_underscore(s: &[u8], a: usize, e: usize) -> Option<usize>
    requires { (a ≤ e) × (e ≤ length s.now) }
    ensures { MatchOption result (a ≤ e) (λ u. (a ≤ u) × (u < e) × (get_or s.now u 0 ≡ 95)) }
{
    let i = s[a..e].iter().rposition(|b| *b == b'_')?;
    Some(a + i)
}

// Why a lyric line has no count.
fn bare_line(s: &[u8], l: Line) -> Slip
    requires { LineIn s.now l }
    ensures { BareOn s.now l result.clause result.from result.to }
{
    let a = l.start;
    let e = l.stop;
    let k = last_word(s, a, e);
    let Some(u) = last_underscore(s, k, e) else {
        return at_place(COUNT_MISSING, e, e);
    };
    if number_in(1, 9999, &s[u + 1..e]).is_none() {
        if s[k] == b'_' {
            return at_place(COUNT_WRONG, k, e);
        }
        return at_place(COUNT_MISSING, e, e);
    }
    if u == a {
        return at_place(COUNT_ALONE, a, e);
    }
    at_place(COUNT_TIGHT, u, e)
}

// The number of the first line with a count.
fn counted_line(s: &[u8], run: Run) -> Option<usize>
    requires { (run.number ≤ run.at + 1) × (run.at ≤ length s.now) }
{
    let mut n = run.number;
    let mut at = run.at;
    while at < s.len() && at < run.next {
        let l = line_at(s, n, at);
        if lyric_words(s, l.start, l.stop).count != 0 {
            return Some(n);
        }
        n += 1;
        at = l.next;
    }
    None
}

// The same among the lines that are taken of the block at a place.
fn counted_in_block(s: &[u8], known: &[Known], p: Place) -> Option<usize>
    requires { Counted p × (p.at < length s.now) × (length s.now ≤ 65536) }
{
    let parts = section_parts(s, p.number, p.at);
    if is_empty(s, known, parts.pattern) {
        return None;
    }
    counted_line(s, parts.lyrics)
}

// The same in the whole song.
fn counted_in_song(s: &[u8]) -> Option<usize>
    requires { length s.now ≤ 65536 }
{
    let known = known_before(s, s.len(), Why::ReferenceKind);
    let mut p = Place { number: 1, at: 0 };
    while p.at < s.len() {
        let n = counted_in_block(s, &known, p);
        if n.is_some() {
            return n;
        }
        p = block_behind(s, p);
    }
    None
}

// Refusal 16.
pub fn count_slip(s: &[u8], l: Line) -> Slip
    requires { LineIn s.now l × (length s.now ≤ 65536) }
    ensures { BareOn s.now l result.clause result.from result.to }
{
    Slip {
        other: counted_in_song(s).unwrap_or(0),
        ..bare_line(s, l)
    }
}

// Refusal 17; its numbers are known where the section is played.
pub fn sum_slip(s: &[u8], p: Spot) -> Slip
    requires { LineIn s.now p.line × Counted p.block × (length s.now ≤ 65536) }
    ensures { (result.clause ≡ 1) × NameOn s.now p.line result.from result.to }
{
    let name = header_name(1, s, p.line);
    if s.len() <= p.block.at {
        return name;
    }
    let parts = section_parts(s, p.block.number, p.block.at);
    let lyrics = parts.lyrics;
    Slip {
        other: lyrics.number.saturating_add(lyrics.lines).saturating_sub(1),
        ..name
    }
}
