// Stage 4 of a section: measures that fit N, and `%` with a chord before it.
ghost use Rattle.std.specs.Prelude.{◌≡◌};
ghost use Rattle.judging.specs.Meters.{text_fault, side_fault, meter_fault};

use laying::Texts;
use outlines::{Outline, sizes_fit};
use refusals::{Complaint, NO_COMPLAINT, Why, complain_if};
use sections::{Modifiers, Said};

// What a text is complained of in N, on that line.
fn text_fault(o: Outline, n: usize, line: usize) -> Complaint
    ensures { result ≡ text_fault o n line }
{
    let twelve = complain_if(!sizes_fit(o.sizes, n), Why::Division, line);
    twelve.min(complain_if(o.wants, Why::NoChordBefore, line))
}

// What a lead-in or tail is complained of, on its own line.
fn side_fault(said: Option<Said>, o: Outline, n: usize) -> Complaint
    ensures { result ≡ side_fault said o n }
{
    match said {
        Some(x) => text_fault(o, n, x.line),
        None => NO_COMPLAINT,
    }
}

// A section's pattern is complained of on its header's line.
pub fn meter_fault(header: usize, m: Modifiers, t: Texts, n: usize) -> Complaint
    ensures { result ≡ meter_fault header m t n }
{
    let own = text_fault(t.pattern.outline, n, header);
    let lead = side_fault(m.before, t.lead.outline, n);
    let tail = side_fault(m.after, t.tail.outline, n);
    own.min(lead.min(tail))
}
