// Preemption in closed form, and by visits that stop when no day is short. The functions carry the statements and do
// nothing when run.
#![tactic(auto)]

ghost use Rattle.visits.specs.ClosedForm.{ClosedForm};
ghost use Rattle.visits.specs.Visiting.{StoppingChangesNothing};

// Visiting the defenders in turn and stopping when no day is short writes the same lines as visiting them all.
pub fn show_stopping_changes_nothing()
    ensures { StoppingChangesNothing }
{}

// What each defender gives and what the challenger is granted can be told from the lines before the submit and the order
// of turn alone.
pub fn show_closed_form()
    ensures { ClosedForm }
{}
