// What is to change, and what a sentence about it needs.
ghost use Rattle.std.specs.Prelude.{◌≡◌};

// The number of the refusal's clause; the places of the first byte that is to change and behind the last; one more line worth showing, or 0;
// three numbers, 0 where the clause has none.
#[derive(Drop)]
pub struct Slip {
    pub clause: usize,
    pub from: usize,
    pub to: usize,
    pub other: usize,
    pub first: usize,
    pub second: usize,
    pub third: usize,
}

// A clause and its place.
pub fn at_place(clause: usize, from: usize, to: usize) -> Slip
    ensures { (result.clause ≡ clause) × (result.from ≡ from) × (result.to ≡ to) }
{
    noted(clause, from, to, 0, 0)
}

// A clause and its place, one more line and a number.
pub fn noted(clause: usize, from: usize, to: usize, other: usize, first: usize) -> Slip
    ensures { (result.clause ≡ clause) × (result.from ≡ from) × (result.to ≡ to) }
{
    Slip {
        clause,
        from,
        to,
        other,
        first,
        second: 0,
        third: 0,
    }
}

// No clause and no place.
pub fn no_slip() -> Slip {
    at_place(0, 0, 0)
}
