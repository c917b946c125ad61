// A new record, granted what is free up to its MW.
ghost use Rattle.std.specs.Prelude.{◌≡◌, ◌+◌, ◌≤◌, true, cond, length};
ghost use Rattle.terms.specs.Words.{is_living};
ghost use Rattle.desk.specs.Desks.{view};
ghost use Rattle.desk.specs.Soundness.{Sound};
ghost use Rattle.law.specs.Calls.{submit as submitting, written, entered};
ghost use Rattle.law.specs.Places.{new_record};
ghost use Rattle.law.specs.Posting.{by_day};
ghost use Rattle.law.specs.Preemption.{grant};
ghost use Rattle.answers.specs.Told.{told};
ghost use Rattle.entering.specs.Enterable.{Enterable, NewRecord};
ghost use Rattle.sheets.specs.Laws.{Possible};

use answers::Done;
use desk::record::{MOST_DAYS, Record};
use journal::line::LineKind;
use moving::Move;
use moving::ledger::Ledger;
use posting::sides::Side;
use sheets::RuleSheet;
use sheets::falling_due::due_of;
use terms::refusal::Refusal;
use terms::request::{Request, Standing};
use terms::words::State;

// The record of a request in a state, with no MW yet: a pending one falls due a confirm time after the call, any other when
// its last day is over.
pub fn new_record<S: RuleSheet>(sheet: &S, minute: u32, request: &Request, state: State) -> Record
    requires possible { Possible request.now }
    requires early { minute ≤ 1000000 }
    requires inside { request.now.start + request.now.length ≤ 400 }
    ensures { NewRecord (S.rules sheet.now) minute request.now state result }
{
    let standing = Standing {
        request: *request,
        state,
        queued: minute,
    };
    Record {
        standing,
        due: due_of(sheet, minute, &standing),
        against: 0,
        held: [0; MOST_DAYS],
        aside: [0; MOST_DAYS],
    }
}

// Enters a request in a place, granted the lesser of free and its MW on each day.
pub fn enter<S: RuleSheet>(
    ledger: &mut Ledger,
    sheet: &S,
    minute: u32,
    request: &Request,
    place: usize,
    state: State,
) -> Result<Done, Refusal>
    requires sound { Sound ledger.old.desk }
    requires few_lines { length ledger.old.desk.lines.now ≤ 65536 }
    requires may { Enterable (view ledger.old.desk) minute request.now place }
    requires lives { is_living state ≡ true }
    ensures says { (told result, view ledger.new.desk) ≡ written (submitting minute request.now) (view ledger.old.desk)
        (entered (S.rules sheet.now) minute request.now state
        (by_day (grant minute request.now) request.now.start request.now.length (view ledger.old.desk).lines)
        (view ledger.old.desk).places) }
{
    let first = ledger.desk.used;
    let count = ledger.count_busy(Side::Free, request.start, request.length);
    if count as usize > ledger.desk.lines.len() - first {
        return Err(Refusal::JournalFull);
    }
    let new = new_record(sheet, minute, request, state);
    ledger.seat(place, new);
    let granted = Move {
        minute,
        kind: LineKind::Granted,
        a: 0,
        b: request.aref,
        giver: Side::Free,
        taker: Side::Held(place),
        most: request.mw,
    };
    ledger.move_by_day(granted, request.start, request.length);
    ledger.desk.clock = minute;
    ledger.desk.top = request.aref;
    Ok(Done {
        aref: request.aref,
        state,
        first: first as u32,
        count,
    })
}
