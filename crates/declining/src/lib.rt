// A match that is declined: what was set aside of a record goes to its challenger.
#![tactic(auto)]

ghost use Rattle.std.specs.Prelude.{◌≡◌, ◌<◌, ◌≤◌, true, length, slice_index_or};
ghost use Rattle.admitting.specs.Writing.{Writes};
ghost use Rattle.answers.specs.Told.{told};
ghost use Rattle.declining.specs.Losing.{lost, left_as, PlaceOf};
ghost use Rattle.desk.specs.Desks.{view};
ghost use Rattle.desk.specs.Soundness.{Sound};
ghost use Rattle.law.specs.Calls.{declined};
ghost use Rattle.law.specs.Keeps.{Termed};
ghost use Rattle.law.specs.View.{living, nobody};
ghost use Rattle.posting.specs.Postable.{with_lines};

use answers::Done;
use closing::close_if_last;
use desk::memory::Desk;
use journal::line::LineKind;
use looking::place_of;
use moving::Move;
use moving::ledger::Ledger;
use posting::sides::Side;
use restating::{holds_nothing, restate};
use sheets::RuleSheet;
use terms::checked::MOST_MW;
use terms::refusal::Refusal;
use terms::words::State;

// The place of the challenger; any place where nobody lives under its AREF, since then nothing is set aside for it.
fn challenger_place(desk: &Desk, against: u32) -> usize
    ensures { PlaceOf (view desk.now).places against result }
{
    place_of(desk.places, against).unwrap_or(0)
}

// Moves what was set aside of the record in a place to its challenger.
fn lose(ledger: &mut Ledger, minute: u32, i: usize)
    requires sound { Sound ledger.old.desk }
    requires within { i < length ledger.old.desk.places.now }
    requires lives { living (slice_index_or (view ledger.old.desk).places i nobody) ≡ true }
    requires roomy { length (lost minute (slice_index_or (view ledger.old.desk).places i nobody) (view ledger.old.desk).lines) ≤ (view ledger.old.desk).room }
    ensures view { view ledger.new.desk ≡ with_lines (view ledger.old.desk) (lost minute (slice_index_or (view ledger.old.desk).places i nobody) (view ledger.old.desk).lines) }
{
    let request = ledger.desk.places[i].standing.request;
    let against = ledger.desk.places[i].against;
    let j = challenger_place(&ledger.desk, against);
    let all = Move {
        minute,
        kind: LineKind::Lost,
        a: request.aref,
        b: against,
        giver: Side::Aside(i),
        taker: Side::Held(j),
        most: MOST_MW,
    };
    ledger.move_by_day(all, request.start, request.length);
}

// What a record is that has lost what was set aside of it.
fn left_as(ledger: &Ledger, i: usize) -> State
    requires within { i < length ledger.now.desk.places.now }
    requires lives { living (slice_index_or (view ledger.now.desk).places i nobody) ≡ true }
    requires term { Termed (view ledger.now.desk).days (slice_index_or (view ledger.now.desk).places i nobody) }
    ensures { result ≡ left_as (view ledger.now.desk).lines (slice_index_or (view ledger.now.desk).places i nobody) }
{
    if holds_nothing(&ledger.desk, i) {
        return State::Gone;
    }
    State::Confirmed
}

// The record in a place declines to match: its challenger gets what was set aside, and closes if that was the last match.
pub fn decline_at<S: RuleSheet>(
    ledger: &mut Ledger,
    sheet: &S,
    minute: u32,
    i: usize,
) -> Result<Done, Refusal>
    requires sound { Sound ledger.old.desk }
    requires few_lines { length ledger.old.desk.lines.now ≤ 65536 }
    requires within { i < length ledger.old.desk.places.now }
    requires lives { living (slice_index_or (view ledger.old.desk).places i nobody) ≡ true }
    requires early { minute ≤ 1000000 }
    ensures says { Writes (view ledger.old.desk) minute (declined (S.rules sheet.now) minute (slice_index_or (view ledger.old.desk).places i nobody) (view ledger.old.desk)) (told result) (view ledger.new.desk) }
{
    let first = ledger.desk.used;
    let request = ledger.desk.places[i].standing.request;
    let against = ledger.desk.places[i].against;
    let count = ledger.count_busy(Side::Aside(i), request.start, request.length);
    if count as usize > ledger.desk.lines.len() - first {
        return Err(Refusal::JournalFull);
    }
    lose(ledger, minute, i);
    let state = left_as(ledger, i);
    restate(ledger, i, state, request.over_minute());
    close_if_last(ledger, sheet, minute, against);
    ledger.desk.clock = minute;
    Ok(Done {
        aref: request.aref,
        state,
        first: first as u32,
        count,
    })
}
