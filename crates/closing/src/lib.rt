// Matches that close: when the last one does, its challenger is confirmed, gone or offered.
#![tactic(auto)]

ghost use Rattle.std.specs.Prelude.{◌≡◌, ◌<◌, ◌≤◌, true, length, slice_index_or};
ghost use Rattle.closing.specs.LastClosed.{ClosesAt};
ghost use Rattle.desk.specs.Desks.{view};
ghost use Rattle.law.specs.Calls.{closed_state, close_if_last};
ghost use Rattle.law.specs.Keeps.{Termed};
ghost use Rattle.law.specs.View.{living, nobody};
ghost use Rattle.moving.specs.Midway.{with_places};
ghost use Rattle.std.specs.List.{AllByRecursion};

use desk::memory::Desk;
use looking::{any_match_open, place_of};
use moving::ledger::Ledger;
use restating::{holds_nothing, holds_whole, restate};
use sheets::RuleSheet;
use sheets::falling_due::due_of;
use terms::words::State;

// The place of a challenger whose last match has closed; none while a match is open.
fn closes_at(desk: &Desk, against: u32) -> Option<usize>
    ensures { ClosesAt (view desk.now).places against result }
{
    if any_match_open(desk.places) {
        return None;
    }
    place_of(desk.places, against)
}

// What a challenger becomes when its last match has closed: confirmed if it holds its MW, gone if it holds nothing, else
// offered.
fn closed_state(ledger: &Ledger, j: usize) -> State
    requires within { j < length ledger.now.desk.places.now }
    requires lives { living (slice_index_or (view ledger.now.desk).places j nobody) ≡ true }
    requires term { Termed (view ledger.now.desk).days (slice_index_or (view ledger.now.desk).places j nobody) }
    ensures { result ≡ closed_state (view ledger.now.desk).lines (slice_index_or (view ledger.now.desk).places j nobody) }
{
    if holds_whole(&ledger.desk, j) {
        return State::Confirmed;
    }
    if holds_nothing(&ledger.desk, j) {
        return State::Gone;
    }
    State::Offered
}

// Closes the challenger if no match is open any more.
pub fn close_if_last<S: RuleSheet>(ledger: &mut Ledger, sheet: &S, minute: u32, against: u32)
    requires terms { AllByRecursion (Termed (view ledger.old.desk).days) (view ledger.old.desk).places }
    requires early { minute ≤ 1000000 }
    ensures view { view ledger.new.desk ≡ with_places (view ledger.old.desk) (close_if_last (S.rules sheet.now) minute (view ledger.old.desk).lines against (view ledger.old.desk).places) }
{
    if let Some(j) = closes_at(&ledger.desk, against) {
        let mut standing = ledger.desk.places[j].standing;
        standing.state = closed_state(ledger, j);
        let due = due_of(sheet, minute, &standing);
        restate(ledger, j, standing.state, due);
    }
}
