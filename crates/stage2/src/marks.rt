// What was said once: eight marks for keys or modifiers.
ghost use Rattle.std.specs.Prelude.{◌≡◌};
ghost use Rattle.refusals.specs.Names.{number_of};
ghost use Rattle.stage2.specs.States.{again, marked};

use refusals::{Complaint, NO_COMPLAINT, Why, complain_if};

// Complained of if the mark is there already; 8 is nothing.
pub fn again_note(why: Why, k: usize, marks: [bool; 8], line: usize) -> Complaint
    ensures { result ≡ again (number_of why) k marks line }
{
    if k < 8 {
        complain_if(marks[k], why, line)
    } else {
        NO_COMPLAINT
    }
}

pub fn put_mark(k: usize, marks: [bool; 8]) -> [bool; 8]
    ensures { result ≡ marked k marks }
{
    let mut m = marks;
    if k < 8 {
        m[k] = true;
    }
    m
}
