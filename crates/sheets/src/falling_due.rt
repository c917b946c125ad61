// When a record falls due.
ghost use Rattle.std.specs.Prelude.{◌≡◌, ◌+◌, ◌≤◌};
ghost use Rattle.sheets.specs.FallingDue.{due_of};
ghost use Rattle.sheets.specs.Laws.{Possible};

use crate::RuleSheet;
use terms::request::Standing;

// The minute at which a record that now stands so falls due: a pending one a confirm time later, any other when its last
// day is over.
pub fn due_of<S: RuleSheet>(sheet: &S, minute: u32, standing: &Standing) -> u32
    requires possible { Possible standing.now.request }
    requires early { minute ≤ 1000000 }
    requires inside { standing.now.request.start + standing.now.request.length ≤ 400 }
    ensures { result ≡ due_of (S.rules sheet.now) minute standing.now }
{
    if standing.state.is_pending() {
        minute + sheet.confirm_time(standing)
    } else {
        standing.request.over_minute()
    }
}
