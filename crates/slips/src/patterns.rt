// Slips in pattern text, refusal 7: the text is read up to where it first stops being the beginning of a right one.
ghost use Rattle.std.specs.Prelude.{◌≡◌, List, [], ◌∷◌, ◌++◌, true, false, ℕ, ◌+◌, ◌≤◌, ◌<◌, length, MatchBool, MatchResult, ◌⊎◌};
ghost use Rattle.std.specs.Option.{IfSome};
ghost use Rattle.songcode.specs.Answer.Lines.{Line};
ghost use Rattle.songcode.specs.Answer.Tokens.{line_end};
ghost use Rattle.songcode.specs.Answer.Tokens as songcode;
ghost use Rattle.grammar.specs.Checks.{first};
ghost use Rattle.tokens.specs.TokenWords.{token_word};
ghost use Rattle.tokens.specs.Fitting.{Fit};
ghost use Rattle.tokens.specs.Lexing.{tokens_from};
ghost use Rattle.slips.specs.Standing.{LineIn, Counted};
ghost use Rattle.slips.specs.Clauses.{number_of};
ghost use Rattle.slips.specs.Rules.{is_earlier, Latest, Told, piece};
ghost use Rattle.slips.specs.RulesRead.{misnamed, is_side, is_stuck, back_of, Going, Steps, Reads, up_to};
ghost use Rattle.slips.specs.Rules.{Ruled};
ghost use Rattle.slips.specs.RulesRead.{ReadAll, RuledAt, side_line};
ghost use Rattle.slips.specs.declared.patterns.Whose.TheVariants.{Side};
ghost use Rattle.sections.specs.Runs.{lines_of};

use super::beginnings::{bytes_begun, kind_begun, sign_at};
use super::faults::{Clause, end_clause, line_end_clause, token_clause};
use super::signs::{Token, token_from};
use super::slip::{Slip, at_place};
use super::spots::Spot;
use grammar::{Check, is_alone, is_bad, line_between, start, step_check, step_kind};
use sections::{Run, kind_at, read_definition, section_parts};
use settings::{BlockKind, Kind, kind_of, setting_start};
use text::{byte_at, line_at};
use tokens::{COLON, OPENS, REFERENCE, kind};

// Whose text it is: a definition's, a section's, a lead-in's or tail's.
#[derive(Clone, Copy, PartialEq, Eq)]
pub enum Whose {
    Definition,
    Section,
    Side,
}

// The text so far: what the grammar says of it; the sign of its last token, where this begins and ends; the place of its last `[`, or 0.
#[derive(Clone, Copy)]
pub struct Reading {
    pub check: Check,
    pub last: u32,
    pub from: usize,
    pub to: usize,
    pub open: usize,
}

// A text that has stopped being right: the clause, the place that is to change, the place where it stopped, and that of the last `[` before, or 0.
#[derive(Clone, Copy)]
pub struct Stop {
    pub clause: Clause,
    pub from: usize,
    pub to: usize,
    pub stop: usize,
    pub open: usize,
}

fn reading_from(at: usize) -> Reading
    ensures { (result.check ≡ first) × (result.from ≡ at) × (result.open ≡ 0) }
{
    Reading {
        check: start(),
        last: 0,
        from: at,
        to: at,
        open: 0,
    }
}

fn blamed(r: Reading, clause: Clause, from: usize, to: usize, stop: usize) -> Stop
    ensures { (result.clause ≡ clause) × (result.from ≡ from) × (result.to ≡ to) }
{
    Stop {
        clause,
        from,
        to,
        stop,
        open: r.open,
    }
}

// Whether a `$n` was read that may not stand in this text.
#[tactic(auto, unfolding(crate::specs::RulesRead::misnamed))]
fn is_misnamed(whose: Whose, c: Check) -> bool
    ensures { result ≡ misnamed whose c }
{
    c.named && (whose == Whose::Side || whose == Whose::Section && !is_alone(c.place))
}

// Whether no right text goes on from here.
fn is_stuck(whose: Whose, c: Check) -> bool
    ensures { result ≡ is_stuck whose c }
{
    is_bad(c.place) || is_misnamed(whose, c)
}

// "without `:` and `$`": the clause of a token that may not stand; what stands directly behind a `]` is a wrong count, whatever it is.
fn barred_clause(whose: Whose, sign: u32, w: &[u8]) -> Option<Clause>
    ensures { IfSome result (λ clause. (19 ≤ number_of clause) × (number_of clause ≤ 20)) }
{
    if whose != Whose::Side {
        return None;
    }
    if sign == COLON {
        return Some(Clause::ColonNotHere);
    }
    if byte_at(w, 0) != b']' && sign_at(w, false) < w.len() {
        return Some(Clause::ReferenceNotHere);
    }
    None
}

// Where in a token that begins at a place the text stops being the beginning of a right one.
fn stop_of(whose: Whose, c: Check, w: &[u8], from: usize) -> usize {
    if is_stuck(whose, step_kind(c, kind_begun(byte_at(w, 0)))) {
        return from;
    }
    from.saturating_add(bytes_begun(w))
}

// The place that is to change where a token is behind a right beginning: the token, what stands in it behind its `]`, or the token before it.
fn blame_token(r: Reading, clause: Clause, from: usize, to: usize, stop: usize) -> Stop
    ensures { r.from ≤ from → from ≤ 65536 → Told from (back_of r) (number_of result.clause) result.from }
{
    match clause {
        Clause::RemoverInside | Clause::SeparatorLast => blamed(r, clause, r.from, r.to, stop),
        Clause::LoopCountWrong => blamed(r, clause, from.saturating_add(1), to, stop),
        _ => blamed(r, clause, from, to, stop),
    }
}

// A `$n` where it may not stand: this token, or the one before it.
fn blame_reference(r: Reading, sign: u32, from: usize, to: usize) -> Stop
    ensures { r.from ≤ from → Told from (back_of r) (number_of result.clause) result.from }
{
    if sign == REFERENCE {
        return blamed(r, Clause::ReferenceNotHere, from, to, from);
    }
    blamed(r, Clause::ReferenceNotHere, r.from, r.to, from)
}

// A token with which no right text goes on.
fn blame(s: &[u8], whose: Whose, r: Reading, t: Token) -> Stop
    requires { (t.from ≤ t.next) × (t.next ≤ length s.now) × (t.next ≤ 65536) }
    ensures { r.from ≤ t.from → Told t.from (back_of r) (number_of result.clause) result.from }
{
    let sign = kind(t.word);
    let w = &s[t.from..t.next];
    let stop = stop_of(whose, r.check, w, t.from);
    if let Some(barred) = barred_clause(whose, sign, w) {
        return blamed(r, barred, t.from, t.next, stop);
    }
    if is_misnamed(whose, step_check(r.check, t.word)) || is_misplaced(whose, r.check) {
        return blame_reference(r, sign, t.from, t.next);
    }
    let clause = token_clause(r.check, r.last, sign, w);
    blame_token(r, clause, t.from, t.next, stop)
}

// Whether a token is the `:` that may not stand.
fn is_barred(whose: Whose, sign: u32) -> bool
    ensures { MatchBool result ((is_side whose ≡ true) × (sign ≡ 59)) ((is_side whose ≡ false) ⊎ (sign ≡ 59 → ⊥)) }
{
    whose == Whose::Side && sign == COLON
}

// One more token; a `[` is remembered.
fn read_token(s: &[u8], whose: Whose, r: Reading, t: Token) -> Result<Reading, Stop>
    requires { (t.from ≤ t.next) × (t.next ≤ length s.now) × (t.next ≤ 65536) }
    ensures { (ts : List songcode.Token) (at : ℕ) (u : songcode.Token) → Fit u → t.word ≡ token_word u → at ≤ t.from → Going whose ts at r
        → Steps whose ts u t.from t.next (back_of r) t.from result }
{
    let sign = kind(t.word);
    let check = step_check(r.check, t.word);
    if is_stuck(whose, check) {
        return Err(blame(s, whose, r, t));
    }
    if is_barred(whose, sign) {
        return Err(blame(s, whose, r, t));
    }
    Ok(Reading {
        check,
        last: sign,
        from: t.from,
        to: t.next,
        open: if sign == OPENS { t.from } else { r.open },
    })
}

// Whether a section's text is a `$n` so far, and so ends here.
fn is_misplaced(whose: Whose, c: Check) -> bool {
    whose == Whose::Section && is_alone(c.place)
}

// The clause of a line end that may not stand behind this.
fn end_of_line_clause(whose: Whose, c: Check, last: u32) -> Clause
    ensures { is_earlier (number_of result) ≡ true }
{
    if is_misplaced(whose, c) {
        Clause::ReferenceNotHere
    } else {
        line_end_clause(last)
    }
}

// A line end between two lines.
fn read_line_end(whose: Whose, r: Reading) -> Result<Reading, Stop>
    ensures { (ts : List songcode.Token) (at : ℕ) → Going whose ts at r → Steps whose ts line_end at at (back_of r) r.from result }
{
    let check = line_between(r.check);
    if is_stuck(whose, check) {
        let barred = end_of_line_clause(whose, r.check, r.last);
        return Err(blamed(r, barred, r.from, r.to, r.to));
    }
    Ok(Reading { check, ..r })
}

// The end of the text.
fn read_end(r: Reading) -> Stop
    ensures { (at : ℕ) → r.from ≤ at → r.open ≤ at → Told at (back_of r) (number_of result.clause) result.from × (result.from ≤ at) }
{
    let clause = end_clause(r.check);
    if clause == Clause::LoopOpen && 0 < r.open {
        return blamed(r, clause, r.open, r.open.saturating_add(1), r.to);
    }
    if r.last == OPENS {
        return blamed(r, Clause::LoopOpen, r.from, r.to, r.to);
    }
    blamed(r, clause, r.from, r.to, r.to)
}

// The tokens of a line.
fn read_line(s: &[u8], whose: Whose, r: Reading, from: usize, to: usize) -> Result<Reading, Stop>
    requires { (from ≤ to) × (to ≤ length s.now) × (to ≤ 65536) }
    ensures { (passed rest : List Line) (n : ℕ) → Going whose (up_to passed) from r
        → Latest s.now (passed ++ (piece s.now n from to ∷ rest)) (up_to passed) (back_of r)
        → Reads s.now whose (passed ++ (piece s.now n from to ∷ rest)) (up_to passed ++ tokens_from from to s.now) to result }
{
    let mut reading = r;
    let mut at = from;
    while let Some(t) = token_from(s, at, to) {
        reading = read_token(s, whose, reading, t)?;
        at = t.next;
    }
    Ok(reading)
}

// The lines of a text.
fn read_lines(s: &[u8], whose: Whose, run: Run) -> Result<Reading, Stop>
    requires { (length s.now ≤ 65536) × (run.at ≤ length s.now) }
    ensures { (m : Line) (ms : List Line) → lines_of s.now run ≡ m ∷ ms
        → ReadAll s.now whose (lines_of s.now run) result }
{
    let first = line_at(s, 0, run.at);
    let mut reading = read_line(s, whose, reading_from(run.at), first.start, first.stop)?;
    let mut at = first.next;
    for _line in 1..run.lines {
        if s.len() <= at {
            return Ok(reading);
        }
        let l = line_at(s, 0, at);
        reading = read_line(s, whose, read_line_end(whose, reading)?, l.start, l.stop)?;
        at = l.next;
    }
    Ok(reading)
}

// Where a text that is not right has stopped: before its end, or there.
fn stop_in(read: Result<Reading, Stop>) -> Stop
    ensures { MatchResult read (λ r. (at : ℕ) → r.from ≤ at → r.open ≤ at → Told at (back_of r) (number_of result.clause) result.from × (result.from ≤ at))
        (λ e. result ≡ e) }
{
    match read {
        Ok(r) => read_end(r),
        Err(stop) => stop,
    }
}

fn slip_in(x: Stop, header: usize) -> Slip
    ensures { (result.clause ≡ number_of x.clause) × (result.from ≡ x.from) }
{
    Slip {
        clause: usize::from(x.clause),
        from: x.from,
        to: x.to,
        other: header,
        first: x.stop,
        second: if x.open == 0 { x.stop } else { x.open },
        third: 0,
    }
}

// A text that is not right, on these lines.
fn text_slip(s: &[u8], whose: Whose, run: Run, header: usize) -> Slip
    requires { (length s.now ≤ 65536) × (run.at ≤ length s.now) }
    ensures { (m : Line) (ms : List Line) → lines_of s.now run ≡ m ∷ ms
        → Ruled s.now whose (lines_of s.now run) result.clause result.from }
{
    slip_in(stop_in(read_lines(s, whose, run)), header)
}

// The text of a lead-in or tail.
fn side_slip(s: &[u8], p: Spot) -> Slip
    requires { LineIn s.now p.line × (length s.now ≤ 65536) }
    ensures { p.line.start < p.line.stop
        → Ruled s.now Side (side_line s.now p.line ∷ []) result.clause result.from }
{
    if p.line.stop <= p.line.start {
        return at_place(0, p.line.start, p.line.stop);
    }
    let q = setting_start(s, p.line.start + 1, p.line.stop);
    let read = read_line(s, Whose::Side, reading_from(q), q, p.line.stop);
    slip_in(stop_in(read), p.block.number)
}

// Refusal 7.
pub fn pattern_slip(s: &[u8], p: Spot) -> Slip
    requires { LineIn s.now p.line × Counted p.block
        × (p.block.at ≤ length s.now) × (length s.now ≤ 65536) }
    ensures { RuledAt s.now p.line p.block result }
{
    let none = at_place(0, p.line.start, p.line.stop);
    if s.len() <= p.block.at {
        return none;
    }
    match kind_at(s, p.block.number, p.block.at) {
        BlockKind::Metadata => none,
        BlockKind::Definition => {
            let read = read_definition(s, p.block.number, p.block.at);
            text_slip(s, Whose::Definition, read.pattern, p.block.number)
        }
        BlockKind::Section => match kind_of(&s[p.line.start..p.line.stop]) {
            Kind::Key => none,
            Kind::Modifier => side_slip(s, p),
            Kind::Pattern => {
                let parts = section_parts(s, p.block.number, p.block.at);
                text_slip(s, Whose::Section, parts.pattern, p.block.number)
            }
        },
    }
}
