// The sheet that a copy is written on: a lent buffer and how many bytes were written. Past 65,536 bytes nothing more is looked at, and
// nothing is stored past the buffer's end, so that a small buffer only counts.
ghost use Rattle.std.specs.Prelude.{[], ◌∷◌, ◌≤◌, length};
ghost use Rattle.songcode.specs.Answer.Flat.{end_line};
ghost use Rattle.text.specs.Spans.{part};
ghost use Rattle.flat.specs.Sheets.{Adds};

// A byte behind those that were written.
pub fn put(b: u8, copy: &mut [u8], at: usize) -> usize
    ensures { Adds (b ∷ []) copy.old at copy.new result }
{
    if 65536 < at {
        return at;
    }
    if at < copy.len() {
        copy[at] = b;
    }
    at + 1
}

// The bytes of a text from one place up to another.
pub fn put_part(s: &[u8], start: usize, stop: usize, copy: &mut [u8], at: usize) -> usize
    requires { (start ≤ stop) × (stop ≤ length s.now) }
    ensures { Adds (part start stop s.now) copy.old at copy.new result }
{
    let mut out = at;
    for b in &s[start..stop] {
        out = put(*b, copy, out);
    }
    out
}

// The same as a line of the copy: "Lines, trimmed, end in LF".
pub fn put_line(s: &[u8], start: usize, stop: usize, copy: &mut [u8], at: usize) -> usize
    requires { (start ≤ stop) × (stop ≤ length s.now) }
    ensures { Adds (end_line (part start stop s.now)) copy.old at copy.new result }
{
    let written = put_part(s, start, stop, copy, at);
    put(b'\n', copy, written)
}
