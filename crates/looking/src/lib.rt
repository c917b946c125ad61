// Looking through the places of a book: what is due, whose match is open, who stands where, and which place is free.
#![tactic(auto)]

ghost use Rattle.std.specs.Prelude.{◌≡◌, not, map};
ghost use Rattle.desk.specs.Records.{entry_of};
ghost use Rattle.law.specs.Calls.{falls_due, is_due};
ghost use Rattle.law.specs.Places.{some, match_open};
ghost use Rattle.law.specs.View.{is, living};
ghost use Rattle.looking.specs.FirstPlace.{first_place};

use desk::record::Record;
use terms::words::State;

// Does a record in this state fall due?
pub fn state_falls_due(state: State) -> bool
    ensures { result ≡ falls_due state }
{
    matches!(
        state,
        State::Confirmed | State::Accepted | State::Offered | State::Challenged
    )
}

// Did a record fall due before the minute?
pub fn fell_due(one: &Record, minute: u32) -> bool
    ensures { result ≡ is_due minute (entry_of one.now) }
{
    state_falls_due(one.standing.state) && one.due < minute
}

// Did any record fall due before the minute?
pub fn any_due(places: &[Record], minute: u32) -> bool
    ensures { result ≡ some (is_due minute) (map entry_of places.now) }
{
    places.iter().any(|one| fell_due(one, minute))
}

// Is any match open?
pub fn any_match_open(places: &[Record]) -> bool
    ensures { result ≡ match_open (map entry_of places.now) }
{
    places.iter().any(|one| one.standing.state.is_challenged())
}

// Is it the living record of an AREF?
pub fn stands_for(one: &Record, aref: u32) -> bool
    ensures { result ≡ is aref (entry_of one.now) }
{
    one.standing.state.is_living() && one.standing.request.aref == aref
}

// The place of the living record of an AREF.
pub fn place_of(places: &[Record], aref: u32) -> Option<usize>
    ensures { result ≡ first_place (is aref) (map entry_of places.now) }
{
    places.iter().position(|one| stands_for(one, aref))
}

// Does no living record have the place?
pub fn is_vacant(one: &Record) -> bool
    ensures { result ≡ not (living (entry_of one.now)) }
{
    !one.standing.state.is_living()
}

// The first place that nobody living has.
pub fn vacant_place(places: &[Record]) -> Option<usize>
    ensures { result ≡ first_place (λ e. not (living e)) (map entry_of places.now) }
{
    places.iter().position(is_vacant)
}
