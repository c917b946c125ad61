// Pending defenders that meet a shortage are superseded whole: their MW become free.
ghost use Rattle.std.specs.Prelude.{◌≡◌, ◌+◌, ◌<◌, ◌≤◌, length};
ghost use Rattle.defending.specs.LinedUp.{entry_at, lined};
ghost use Rattle.law.specs.Preemption.{supersede_all};
ghost use Rattle.shelf.specs.Contents.{contents};
ghost use Rattle.desk.specs.Desks.{view};
ghost use Rattle.posting.specs.Postable.{with_lines};
ghost use Rattle.preempting.specs.Visits.{StandsReady, ShortShown, AllReady, superseding as superseding_lines};

use defending::shortage::visit;
use journal::line::LineKind;
use moving::Move;
use moving::ledger::Ledger;
use posting::sides::Side;
use shelf::Shelf;
use shelf::defender::Defender;
use terms::checked::MOST_MW;
use terms::request::Request;

// Supersedes the record in a place, if it is pending and holds MW on a day that is short.
pub fn supersede_if_needed(
    ledger: &mut Ledger,
    minute: u32,
    request: &Request,
    place: usize,
    short: &mut [u32],
)
    requires within { place < length ledger.old.desk.places.now }
    requires ready { StandsReady request.now (view ledger.old.desk) (entry_at (view ledger.old.desk).places place) }
    requires short { ShortShown request.now (view ledger.old.desk).lines short.old }
    requires month { request.now.length ≤ 31 }
    requires inside { request.now.start + request.now.length ≤ 400 }
    requires roomy { length (superseding_lines minute request.now (entry_at (view ledger.old.desk).places place) (view ledger.old.desk).lines) ≤ (view ledger.old.desk).room }
    ensures view { view ledger.new.desk ≡ with_lines (view ledger.old.desk) (superseding_lines minute request.now (entry_at (view ledger.old.desk).places place) (view ledger.old.desk).lines) }
    ensures short { ShortShown request.now (superseding_lines minute request.now (entry_at (view ledger.old.desk).places place) (view ledger.old.desk).lines) short.new }
{
    let one = ledger.desk.places[place];
    if !one.standing.state.is_pending() {
        return;
    }
    if visit(&one, request, short) == 0 {
        return;
    }
    let superseded = Move {
        minute,
        kind: LineKind::Superseded,
        a: one.standing.request.aref,
        b: request.aref,
        giver: Side::Held(place),
        taker: Side::Free,
        most: MOST_MW,
    };
    ledger.move_by_day(
        superseded,
        one.standing.request.start,
        one.standing.request.length,
    );
}

// Supersedes in turn the pending defenders that are needed.
pub fn supersede_in_turn(
    ledger: &mut Ledger,
    minute: u32,
    request: &Request,
    defenders: &Shelf<Defender>,
    short: &mut [u32],
)
    requires ready { AllReady request.now ledger.old.desk (contents defenders.now) }
    requires short { ShortShown request.now (view ledger.old.desk).lines short.old }
    requires month { request.now.length ≤ 31 }
    requires inside { request.now.start + request.now.length ≤ 400 }
    requires roomy { length (supersede_all minute request.now (lined (view ledger.old.desk).places (contents defenders.now)) (view ledger.old.desk).lines) ≤ (view ledger.old.desk).room }
    ensures view { view ledger.new.desk ≡ with_lines (view ledger.old.desk) (supersede_all minute request.now (lined (view ledger.old.desk).places (contents defenders.now)) (view ledger.old.desk).lines) }
    ensures short { ShortShown request.now (supersede_all minute request.now (lined (view ledger.old.desk).places (contents defenders.now)) (view ledger.old.desk).lines) short.new }
{
    for one in defenders.entries().iter().rev() {
        supersede_if_needed(ledger, minute, request, one.place, short);
    }
}
