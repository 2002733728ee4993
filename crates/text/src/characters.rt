// Characters by RFC 3629: how many bytes the one at a place has, and how many bytes are good.
ghost use Rattle.std.specs.Prelude.{◌≡◌, true, ◌+◌, ◌≤◌, length, drop, Some, count_by};
ghost use Rattle.songcode.specs.Answer.Characters.{within, is_tail, tails, good_bytes};
ghost use Rattle.text.specs.Leads.{lead_of, width_from, width_at, ascii_length};

// What a first byte announces: the width of its character, and the range of the second byte.
#[derive(Drop)]
pub struct Lead {
    pub width: usize,
    pub low: u8,
    pub high: u8,
}

fn announce(width: usize, low: u8, high: u8) -> Option<Lead>
    ensures { result ≡ Some (record { width = width; low = low; high = high }) }
{
    Some(Lead { width, low, high })
}

// The forms of RFC 3629, section 4, by their first bytes; a zero byte, too, begins no character.
pub fn lead_of(b: u8) -> Option<Lead>
    ensures { result ≡ lead_of b }
{
    match b {
        0x01..=0x7F => announce(1, 0x80, 0xBF),
        0xC2..=0xDF => announce(2, 0x80, 0xBF),
        0xE0 => announce(3, 0xA0, 0xBF),
        0xE1..=0xEC => announce(3, 0x80, 0xBF),
        0xED => announce(3, 0x80, 0x9F),
        0xEE..=0xEF => announce(3, 0x80, 0xBF),
        0xF0 => announce(4, 0x90, 0xBF),
        0xF1..=0xF3 => announce(4, 0x80, 0xBF),
        0xF4 => announce(4, 0x80, 0x8F),
        _ => None,
    }
}

fn is_within(low: u8, high: u8, b: u8) -> bool
    ensures { result ≡ within low high b }
{
    (low..=high).contains(&b)
}

// A byte that begins no character.
pub fn is_tail(b: u8) -> bool
    ensures { result ≡ is_tail b }
{
    is_within(0x80, 0xBF, b)
}

// So many tails stand in front.
fn has_tails(n: usize, bs: &[u8]) -> bool
    ensures { result ≡ tails n bs.now }
{
    n <= bs.len() && bs[..n].iter().all(|b| is_tail(*b))
}

// The width that a lead announces, if the bytes that it wants stand in front of the rest.
fn width_from(lead: Lead, rest: &[u8]) -> Option<usize>
    ensures { result ≡ width_from lead rest.now }
{
    let width = lead.width;
    if width < 2 {
        return Some(width);
    }
    let (second, tails) = rest.split_first()?;
    (is_within(lead.low, lead.high, *second) && has_tails(width - 2, tails)).then_some(width)
}

// The width of the character at a place, if a whole one stands there.
pub fn width_at(s: &[u8], i: usize) -> Option<usize>
    ensures { result ≡ width_at s.now i }
{
    let lead = lead_of(*s.get(i)?)?;
    width_from(lead, &s[i + 1..])
}

// So many bytes are looked at together.
const BLOCK: usize = 16;

// A character of one byte.
fn is_ascii(b: u8) -> bool
    ensures { result ≡ within 0x01 0x7F b }
{
    is_within(0x01, 0x7F, b)
}

// How many bytes are characters of one byte: a sum, with no way out of it, so that the compiler takes a block at once.
fn ascii_among(t: &[u8]) -> usize
    ensures { result ≡ count_by (within 0x01 0x7F) t.now }
{
    let mut n = 0;
    for b in t {
        n += usize::from(is_ascii(*b));
    }
    n
}

// A whole block of them stands at a place.
fn ascii_block(t: &[u8], i: usize) -> bool
    requires { i ≤ length t.now }
    ensures { result ≡ true → (i + 16 ≤ length t.now)
        × (ascii_length (drop i t.now) ≡ 16 + ascii_length (drop (i + 16) t.now)) }
{
    t.len() - i >= BLOCK && ascii_among(&t[i..i + BLOCK]) == BLOCK
}

// How many characters of one byte stand in front.
fn ascii_len(t: &[u8]) -> usize
    ensures { (result ≡ ascii_length t.now) × (result ≤ length t.now) }
{
    let mut i = 0;
    while ascii_block(t, i) {
        i += BLOCK;
    }
    let rest = &t[i..];
    i + rest
        .iter()
        .position(|b| !is_ascii(*b))
        .unwrap_or(rest.len())
}

// How many bytes stand before the first place with a zero or no whole character.
pub fn good_bytes(s: &[u8]) -> usize
    ensures { (result ≡ good_bytes 0 s.now) × (result ≤ length s.now) }
{
    let mut i = ascii_len(s);
    while let Some(width) = width_at(s, i) {
        i += width;
        i += ascii_len(&s[i..]);
    }
    i
}
