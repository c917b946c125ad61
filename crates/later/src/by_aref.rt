// The calls on one record, by its AREF. Each is two lines and a contract of its own; one function of a step to take would
// say less of each.
ghost use Rattle.std.specs.Prelude.{◌≡◌, ◌<◌, ◌≤◌, true, length, slice_index_or};
ghost use Rattle.admitting.specs.Writing.{Writes};
ghost use Rattle.answers.specs.Told.{told};
ghost use Rattle.desk.specs.Desks.{view};
ghost use Rattle.desk.specs.Soundness.{Sound};
ghost use Rattle.later.specs.Confirming.{confirms};
ghost use Rattle.law.specs.Calls.{step, done, confirm as confirming, withdraw as withdrawing, decline as declining};
ghost use Rattle.law.specs.View.{living, nobody};
ghost use Rattle.sheets.specs.Rules.{Rules};

use admitting::{MustBe, by_aref};
use answers::Done;
use declining::decline_at;
use leaving::let_go;
use moving::ledger::Ledger;
use restating::restate;
use sheets::RuleSheet;
use terms::refusal::Refusal;
use terms::words::State;

// The record in a place is confirmed: no MW move, and it falls due when its last day is over.
fn confirm_at(ledger: &mut Ledger, minute: u32, i: usize) -> Done
    requires sound { Sound ledger.old.desk }
    requires few_lines { length ledger.old.desk.lines.now ≤ 65536 }
    requires within { i < length ledger.old.desk.places.now }
    requires lives { living (slice_index_or (view ledger.old.desk).places i nobody) ≡ true }
    ensures says { Writes (view ledger.old.desk) minute (confirms (slice_index_or (view ledger.old.desk).places i nobody) (view ledger.old.desk)) (done result.aref result.state result.first result.count) (view ledger.new.desk) }
{
    let first = ledger.desk.used;
    let request = ledger.desk.places[i].standing.request;
    restate(ledger, i, State::Confirmed, request.over_minute());
    ledger.desk.clock = minute;
    Done {
        aref: request.aref,
        state: State::Confirmed,
        first: first as u32,
        count: 0,
    }
}

// The customer confirms a pending record.
pub fn confirm(ledger: &mut Ledger, minute: u32, aref: u32) -> Result<Done, Refusal>
    requires sound { Sound ledger.old.desk }
    requires few_lines { length ledger.old.desk.lines.now ≤ 65536 }
    ensures says { (R : Rules) → (told result, view ledger.new.desk) ≡ step R (confirming minute aref) (view ledger.old.desk) }
{
    let i = by_aref(&ledger.desk, minute, aref, MustBe::Pending)?;
    Ok(confirm_at(ledger, minute, i))
}

// The customer withdraws a pending record.
pub fn withdraw(ledger: &mut Ledger, minute: u32, aref: u32) -> Result<Done, Refusal>
    requires sound { Sound ledger.old.desk }
    requires few_lines { length ledger.old.desk.lines.now ≤ 65536 }
    ensures says { (R : Rules) → (told result, view ledger.new.desk) ≡ step R (withdrawing minute aref) (view ledger.old.desk) }
{
    let i = by_aref(&ledger.desk, minute, aref, MustBe::Pending)?;
    let_go(ledger, minute, i)
}

// The customer of a challenged record declines to match.
pub fn decline<S: RuleSheet>(
    ledger: &mut Ledger,
    sheet: &S,
    minute: u32,
    aref: u32,
) -> Result<Done, Refusal>
    requires sound { Sound ledger.old.desk }
    requires few_lines { length ledger.old.desk.lines.now ≤ 65536 }
    ensures says { (told result, view ledger.new.desk) ≡ step (S.rules sheet.now) (declining minute aref) (view ledger.old.desk) }
{
    let i = by_aref(&ledger.desk, minute, aref, MustBe::Challenged)?;
    decline_at(ledger, sheet, minute, i)
}
