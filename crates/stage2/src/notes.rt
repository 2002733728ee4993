// Numbers that a test or a comparison picks.
ghost use Rattle.std.specs.Prelude.{◌≡◌};
ghost use Rattle.stage2.specs.Walk.{unless};

use refusals::{Complaint, NO_COMPLAINT};

// Unless the test passes, this complaint.
pub fn none_if(test: bool, r: Complaint) -> Complaint
    ensures { result ≡ unless test r }
{
    if test { NO_COMPLAINT } else { r }
}
