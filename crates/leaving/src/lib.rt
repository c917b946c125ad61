// A record that leaves: its MW become free, or have flown, and its place is given back.
#![tactic(auto)]

ghost use Rattle.std.specs.Prelude.{◌≡◌, ◌<◌, ◌≤◌, true, length, slice_index_or};
ghost use Rattle.admitting.specs.Writing.{Writes};
ghost use Rattle.answers.specs.Told.{told};
ghost use Rattle.desk.specs.Desks.{view};
ghost use Rattle.desk.specs.Soundness.{Sound};
ghost use Rattle.law.specs.Calls.{let_go, flew};
ghost use Rattle.law.specs.View.{living, nobody};
ghost use Rattle.leaving.specs.WaysOut.{leaves_by, WayOut};

use answers::Done;
use journal::line::LineKind;
use moving::Move;
use moving::ledger::Ledger;
use posting::sides::Side;
use restating::restate;
use terms::checked::MOST_MW;
use terms::refusal::Refusal;
use terms::words::State;

// All that the record in a place holds goes to a side by lines of a kind, and the record is gone.
fn leave(
    ledger: &mut Ledger,
    minute: u32,
    i: usize,
    kind: LineKind,
    taker: Side,
) -> Result<Done, Refusal>
    requires sound { Sound ledger.old.desk }
    requires few_lines { length ledger.old.desk.lines.now ≤ 65536 }
    requires way { WayOut kind taker }
    requires within { i < length ledger.old.desk.places.now }
    requires lives { living (slice_index_or (view ledger.old.desk).places i nobody) ≡ true }
    ensures says { Writes (view ledger.old.desk) minute (leaves_by kind minute (slice_index_or (view ledger.old.desk).places i nobody) (view ledger.old.desk)) (told result) (view ledger.new.desk) }
{
    let first = ledger.desk.used;
    let due = ledger.desk.places[i].due;
    let request = ledger.desk.places[i].standing.request;
    let count = ledger.count_busy(Side::Held(i), request.start, request.length);
    if count as usize > ledger.desk.lines.len() - first {
        return Err(Refusal::JournalFull);
    }
    let all = Move {
        minute,
        kind,
        a: request.aref,
        b: 0,
        giver: Side::Held(i),
        taker,
        most: MOST_MW,
    };
    ledger.move_by_day(all, request.start, request.length);
    restate(ledger, i, State::Gone, due);
    ledger.desk.clock = minute;
    Ok(Done {
        aref: request.aref,
        state: State::Gone,
        first: first as u32,
        count,
    })
}

// What the record in a place holds becomes free, and the record is gone.
pub fn let_go(ledger: &mut Ledger, minute: u32, i: usize) -> Result<Done, Refusal>
    requires sound { Sound ledger.old.desk }
    requires few_lines { length ledger.old.desk.lines.now ≤ 65536 }
    requires within { i < length ledger.old.desk.places.now }
    requires lives { living (slice_index_or (view ledger.old.desk).places i nobody) ≡ true }
    ensures says { Writes (view ledger.old.desk) minute (let_go minute (slice_index_or (view ledger.old.desk).places i nobody) (view ledger.old.desk)) (told result) (view ledger.new.desk) }
{
    leave(ledger, minute, i, LineKind::Released, Side::Free)
}

// What the record in a place holds has flown, and the record is gone.
pub fn fly(ledger: &mut Ledger, minute: u32, i: usize) -> Result<Done, Refusal>
    requires sound { Sound ledger.old.desk }
    requires few_lines { length ledger.old.desk.lines.now ≤ 65536 }
    requires within { i < length ledger.old.desk.places.now }
    requires lives { living (slice_index_or (view ledger.old.desk).places i nobody) ≡ true }
    ensures says { Writes (view ledger.old.desk) minute (flew minute (slice_index_or (view ledger.old.desk).places i nobody) (view ledger.old.desk)) (told result) (view ledger.new.desk) }
{
    leave(ledger, minute, i, LineKind::Flown, Side::Flown)
}
