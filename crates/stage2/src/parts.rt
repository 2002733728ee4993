// Where a section's line stands: what is out of place there, and where the next line stands.
ghost use Rattle.std.specs.Prelude.{◌≡◌};
ghost use Rattle.stage2.specs.Places.{past_keys, before_pattern, past_pattern, after_key, after_modifier, after_pattern};

use super::states::Part;

// A key is out of place.
pub fn past_keys(p: Part) -> bool
    ensures { result ≡ past_keys p }
{
    matches!(p, Part::Early | Part::Pattern | Part::Behind)
}

// A modifier is out of place.
pub fn before_pattern(p: Part) -> bool
    ensures { result ≡ before_pattern p }
{
    matches!(p, Part::Keys | Part::Early)
}

// A pattern line is out of place.
pub fn past_pattern(p: Part) -> bool
    ensures { result ≡ past_pattern p }
{
    matches!(p, Part::Behind)
}

pub fn after_key(p: Part) -> Part
    ensures { result ≡ after_key p }
{
    match p {
        Part::Keys => Part::Keys,
        Part::Early => Part::Early,
        Part::Pattern => Part::Behind,
        Part::Behind => Part::Behind,
    }
}

pub fn after_modifier(p: Part) -> Part
    ensures { result ≡ after_modifier p }
{
    match p {
        Part::Keys => Part::Early,
        Part::Early => Part::Early,
        Part::Pattern => Part::Behind,
        Part::Behind => Part::Behind,
    }
}

pub fn after_pattern(p: Part) -> Part
    ensures { result ≡ after_pattern p }
{
    match p {
        Part::Keys => Part::Pattern,
        Part::Early => Part::Pattern,
        Part::Pattern => Part::Pattern,
        Part::Behind => Part::Behind,
    }
}
