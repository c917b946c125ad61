// A record that is changed in its place, and what it holds by day.
#![tactic(auto)]

ghost use Rattle.std.specs.Prelude.{◌≡◌, ◌<◌, true, length, slice_index_or, slice_set};
ghost use Rattle.desk.specs.Desks.{view};
ghost use Rattle.law.specs.Keeps.{Termed};
ghost use Rattle.law.specs.Places.{due_at, in_state};
ghost use Rattle.law.specs.Preemption.{empty};
ghost use Rattle.law.specs.View.{living, nobody};
ghost use Rattle.moving.specs.Midway.{Midway, with_places};
ghost use Rattle.restating.specs.Restatement.{Restated, whole};

use desk::memory::Desk;
use desk::record::{MOST_DAYS, Record};
use moving::ledger::Ledger;
use moving::{count_busy, each_reaches};
use posting::sides::Side;
use terms::words::State;

// A record under another state, due at another minute. One that is gone has no MW.
fn restated(old: Record, state: State, due: u32) -> Record
    ensures { Restated old state due result }
{
    let mut new = old;
    new.standing.state = state;
    new.due = due;
    if !state.is_living() {
        new.held = [0; MOST_DAYS];
        new.aside = [0; MOST_DAYS];
    }
    new
}

// The living record in a place takes another state, and another minute at which it falls due. One that is gone gives its
// place back.
pub fn restate(ledger: &mut Ledger, i: usize, state: State, due: u32)
    requires within { i < length ledger.old.desk.places.now }
    requires lives { living (slice_index_or (view ledger.old.desk).places i nobody) ≡ true }
    ensures view { view ledger.new.desk ≡ with_places (view ledger.old.desk) (slice_set (view ledger.old.desk).places i (due_at due (in_state state (slice_index_or (view ledger.old.desk).places i nobody)))) }
{
    let new = restated(ledger.desk.places[i], state, due);
    ledger.seat(i, new);
}

// Does the record in a place hold nothing on any day of its term?
pub fn holds_nothing(desk: &Desk, i: usize) -> bool
    requires midway { Midway desk.now }
    requires within { i < length desk.now.places.now }
    requires lives { living (slice_index_or (view desk.now).places i nobody) ≡ true }
    requires term { Termed (view desk.now).days (slice_index_or (view desk.now).places i nobody) }
    ensures { result ≡ empty (view desk.now).lines (slice_index_or (view desk.now).places i nobody) }
{
    let request = desk.places[i].standing.request;
    count_busy(desk, Side::Held(i), request.start, request.length) == 0
}

// Does the record in a place hold its MW on each day of its term?
pub fn holds_whole(desk: &Desk, i: usize) -> bool
    requires midway { Midway desk.now }
    requires within { i < length desk.now.places.now }
    requires lives { living (slice_index_or (view desk.now).places i nobody) ≡ true }
    requires term { Termed (view desk.now).days (slice_index_or (view desk.now).places i nobody) }
    ensures { result ≡ whole (view desk.now).lines (slice_index_or (view desk.now).places i nobody) }
{
    let places = &*desk.places;
    let one = &places[i];
    let days = one.standing.request.length as usize;
    each_reaches(&one.held[..days], one.standing.request.mw)
}
