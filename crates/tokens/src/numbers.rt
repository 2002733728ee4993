// Decimals without leading zero.
ghost use Rattle.std.specs.Prelude.{◌≡◌, ◌≤◌};
ghost use Rattle.songcode.specs.Bytes.{placed};
ghost use Rattle.songcode.specs.Answer.Numbers.{number_in};
ghost use Rattle.tokens.specs.Decimals.{number_of, digits_from};

// The number that digits spell, up to 9,999.
fn digits(w: &[u8]) -> Option<usize>
    ensures { result ≡ digits_from 0 (placed 0 w.now) }
{
    let mut v = 0;
    for b in w {
        if !b.is_ascii_digit() || 999 < v {
            return None;
        }
        v = v * 10 + usize::from(*b - b'0');
    }
    Some(v)
}

// The decimal that a text is, up to 9,999.
fn decimal(w: &[u8]) -> Option<usize>
    ensures { result ≡ number_of (number_in 0 9999 (placed 0 w.now)) }
{
    if w.len() == 0 {
        return None;
    }
    if w.len() == 1 {
        return digits(w);
    }
    if w[0] == 48 {
        return None;
    }
    digits(w)
}

// The decimal that a text is, if it is in its range.
pub fn number_in(low: usize, high: usize, w: &[u8]) -> Option<usize>
    requires { high ≤ 9999 }
    ensures { result ≡ number_of (number_in low high (placed 0 w.now)) }
{
    let n = decimal(w)?;
    if low <= n && n <= high { Some(n) } else { None }
}
