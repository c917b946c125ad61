// The first refusals, shared by the calls on a book: the minute, what is due, and whose record a call is for.
#![tactic(auto)]

ghost use Rattle.admitting.specs.Admission.{is_in, Begun, ComesTo};
ghost use Rattle.desk.specs.Desks.{view};
ghost use Rattle.std.specs.Prelude.{◌≡◌, ◌≤◌, true, false, Err, IfOk, IfErr};

use desk::memory::Desk;
use looking::{any_due, place_of};
use terms::refusal::Refusal;
use terms::words::State;

// The last minute of any call.
pub const LAST_MINUTE: u32 = 1_000_000;

// The state that a call by AREF is for. The two are named and no closure is taken: they are the rules' own, and a contract
// that speaks of them is plainer than one of whatever test a caller brings.
#[derive(Clone, Copy, Debug, PartialEq, Eq)]
pub enum MustBe {
    Pending,
    Challenged,
}

// Is a record in the state that a call is for?
pub fn is_in(wanted: MustBe, state: State) -> bool
    ensures { result ≡ is_in wanted state }
{
    match wanted {
        MustBe::Pending => state.is_pending(),
        MustBe::Challenged => state.is_challenged(),
    }
}

// May a call that settles be made at this minute? It is let past what is due.
pub fn begin_settling(desk: &Desk, minute: u32) -> Result<(), Refusal>
    ensures settles { Begun (view desk.now) minute true result }
    ensures late { IfErr result (λ e. Begun (view desk.now) minute false (Err e)) }
    ensures in_order { IfOk result (λ _. (minute ≤ LAST_MINUTE) × (desk.now.clock ≤ minute)) }
{
    if minute > LAST_MINUTE || minute < desk.clock {
        return Err(Refusal::BadMinute);
    }
    Ok(())
}

// May any other call be made at this minute?
pub fn begin(desk: &Desk, minute: u32) -> Result<(), Refusal>
    ensures { Begun (view desk.now) minute false result }
{
    begin_settling(desk, minute)?;
    if any_due(desk.places, minute) {
        return Err(Refusal::ItemDue);
    }
    Ok(())
}

// The place of the record that a call by AREF is for.
pub fn by_aref(desk: &Desk, minute: u32, aref: u32, wanted: MustBe) -> Result<usize, Refusal>
    ensures { ComesTo (view desk.now) minute aref wanted result }
{
    begin(desk, minute)?;
    let i = place_of(desk.places, aref).ok_or(Refusal::NoRecord)?;
    if !is_in(wanted, desk.places[i].standing.state) {
        return Err(Refusal::WrongState);
    }
    Ok(i)
}
