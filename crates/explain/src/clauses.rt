// Causes: a refusal and the number of its clause.
ghost use Rattle.std.specs.Prelude.{◌≡◌, ◌≤◌, get_or};
ghost use Rattle.explain.specs.Causes.{Belongs, clauses, clause_of_cause};

// How many clauses each refusal has.
const CLAUSES: [usize; 18] = [0, 1, 2, 2, 4, 2, 3, 22, 9, 1, 1, 3, 1, 1, 1, 2, 4, 1];

// The refusal alone where it has no clause of that number.
pub fn cause_of(refusal: usize, clause: usize) -> usize
    ensures { (refusal ≤ 17 → Belongs refusal result) × (refusal ≤ 17 → clause ≤ 99 → clause ≤ get_or clauses refusal 0 → clause_of_cause result ≡ clause) }
{
    if 17 < refusal {
        return 0;
    }
    if 99 < clause {
        return refusal * 100;
    }
    if CLAUSES[refusal] < clause {
        return refusal * 100;
    }
    refusal * 100 + clause
}
