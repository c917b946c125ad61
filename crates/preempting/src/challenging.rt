// A visit to a confirmed defender begins: is it needed, and has it the right of first refusal?
ghost use Rattle.std.specs.Prelude.{◌≡◌, ℕ, ◌+◌, ◌<◌, ◌≤◌, true, length, slice_set};
ghost use Rattle.sheets.specs.Laws.{Possible};
ghost use Rattle.journal.specs.Accounts.{balance, aside};
ghost use Rattle.law.specs.View.{aref_of};
ghost use Rattle.law.specs.Preemption.{meets_shortage};
ghost use Rattle.defending.specs.LinedUp.{entry_at};
ghost use Rattle.desk.specs.Desks.{view};
ghost use Rattle.moving.specs.Midway.{with_places};
ghost use Rattle.preempting.specs.Giving.{challenged_by, Seated, Begun};
ghost use Rattle.preempting.specs.Visits.{StandsReady, ShortShown};

use crate::giving::Giving;
use defending::shortage::visit;
use desk::record::{MOST_DAYS, Record};
use moving::ledger::Ledger;
use sheets::RuleSheet;
use terms::request::{Request, Standing};
use terms::words::State;

// The record in a place is challenged: it may match until its answer-by minute.
pub fn challenge<S: RuleSheet>(
    ledger: &mut Ledger,
    sheet: &S,
    minute: u32,
    request: &Request,
    place: usize,
)
    requires within { place < length ledger.old.desk.places.now }
    requires ready { StandsReady request.now (view ledger.old.desk) (entry_at (view ledger.old.desk).places place) }
    requires early { minute ≤ 1000000 }
    requires possible { Possible request.now }
    requires in_time { (S.rules sheet.now).in_time request.now minute (view ledger.old.desk).days ≡ true }
    requires none { (day : ℕ) → balance (view ledger.old.desk).lines (aside (aref_of (entry_at (view ledger.old.desk).places place)) request.now.aref) day ≡ 0 }
    ensures view { view ledger.new.desk ≡ with_places (view ledger.old.desk) (slice_set (view ledger.old.desk).places place (challenged_by (S.rules sheet.now) minute request.now (view ledger.old.desk).days (entry_at (view ledger.old.desk).places place))) }
{
    let one = ledger.desk.places[place];
    let posted = ledger.desk.posted;
    let answer_by = sheet.answer_by(request, &one.standing, minute, &posted);
    let challenged = Record {
        standing: Standing {
            state: State::Challenged,
            ..one.standing
        },
        due: answer_by as u32,
        against: request.aref,
        aside: [0; MOST_DAYS],
        ..one
    };
    ledger.seat(place, challenged);
}

// Begins the visit to a record: none where it is pending or meets no shortage; else it is challenged if it may match, and
// gives.
pub fn begin_visit<S: RuleSheet>(
    ledger: &mut Ledger,
    sheet: &S,
    minute: u32,
    request: &Request,
    challenger: usize,
    place: usize,
    short: &[u32; MOST_DAYS],
) -> Option<Giving>
    requires within { place < length ledger.old.desk.places.now }
    requires ready { StandsReady request.now (view ledger.old.desk) (entry_at (view ledger.old.desk).places place) }
    requires seated { Seated (view ledger.old.desk) request.now challenger }
    requires short { ShortShown request.now (view ledger.old.desk).lines short.now }
    requires inside { request.now.start + request.now.length ≤ 400 }
    requires early { minute ≤ 1000000 }
    requires possible { Possible request.now }
    requires in_time { (S.rules sheet.now).in_time request.now minute (view ledger.old.desk).days ≡ true }
    requires none { (day : ℕ) → balance (view ledger.old.desk).lines (aside (aref_of (entry_at (view ledger.old.desk).places place)) request.now.aref) day ≡ 0 }
    ensures begun { Begun (S.rules sheet.now) minute request.now challenger place (view ledger.old.desk) ledger.new.desk result }
{
    let one = ledger.desk.places[place];
    if one.standing.state.is_pending() {
        return None;
    }
    let mut rest = *short;
    if visit(&one, request, &mut rest) == 0 {
        return None;
    }
    let right = sheet.may_match(request, &one.standing);
    if right {
        challenge(ledger, sheet, minute, request, place);
    }
    Some(Giving {
        minute,
        right,
        aref: one.standing.request.aref,
        place,
        challenger,
        start: one.standing.request.start,
        days: one.standing.request.length,
    })
}
