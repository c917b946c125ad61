// Settling: what the earliest item that is due comes to.
ghost use Rattle.std.specs.Prelude.{◌≡◌, ◌<◌, ◌≤◌, length, slice_index_or};
ghost use Rattle.admitting.specs.Writing.{Writes};
ghost use Rattle.answers.specs.Told.{told};
ghost use Rattle.desk.specs.Desks.{view};
ghost use Rattle.desk.specs.Soundness.{Sound};
ghost use Rattle.dues.specs.FirstDue.{IsFirstDue};
ghost use Rattle.law.specs.Calls.{step, settles, settle as settling};
ghost use Rattle.law.specs.View.{nobody};

use admitting::begin_settling;
use answers::Done;
use declining::decline_at;
use dues::first_due;
use leaving::{fly, let_go};
use moving::ledger::Ledger;
use sheets::RuleSheet;
use terms::refusal::Refusal;
use terms::words::State;

// The place of the earliest item due before the minute.
fn earliest(ledger: &Ledger, minute: u32) -> Option<usize>
    requires sound { Sound ledger.now.desk }
    requires few_places { length ledger.now.desk.places.now ≤ 128 }
    ensures { IsFirstDue (view ledger.now.desk).places minute result }
{
    first_due(ledger.desk.places, minute)
}

// A confirmed record has flown, a pending one is let go, a challenged one has declined; no other falls due.
fn settle_at<S: RuleSheet>(
    ledger: &mut Ledger,
    sheet: &S,
    minute: u32,
    i: usize,
) -> Result<Done, Refusal>
    requires sound { Sound ledger.old.desk }
    requires few_lines { length ledger.old.desk.lines.now ≤ 65536 }
    requires within { i < length ledger.old.desk.places.now }
    requires early { minute ≤ 1000000 }
    ensures says { Writes (view ledger.old.desk) minute (settles (S.rules sheet.now) minute (slice_index_or (view ledger.old.desk).places i nobody) (view ledger.old.desk) (slice_index_or (view ledger.old.desk).places i nobody).standing.state) (told result) (view ledger.new.desk) }
{
    let state = ledger.desk.places[i].standing.state;
    match state {
        State::Confirmed => fly(ledger, minute, i),
        State::Accepted | State::Offered => let_go(ledger, minute, i),
        State::Challenged => decline_at(ledger, sheet, minute, i),
        State::Competing | State::Gone => Err(Refusal::NothingDue),
    }
}

// Settles the earliest item due before the minute.
pub fn settle<S: RuleSheet>(ledger: &mut Ledger, sheet: &S, minute: u32) -> Result<Done, Refusal>
    requires sound { Sound ledger.old.desk }
    requires few_lines { length ledger.old.desk.lines.now ≤ 65536 }
    requires few_places { length ledger.old.desk.places.now ≤ 128 }
    ensures says { (told result, view ledger.new.desk) ≡ step (S.rules sheet.now) (settling minute) (view ledger.old.desk) }
{
    begin_settling(&ledger.desk, minute)?;
    let i = earliest(ledger, minute).ok_or(Refusal::NothingDue)?;
    settle_at(ledger, sheet, minute, i)
}
