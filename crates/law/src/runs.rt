// The law over runs: statements about every list of calls on a newly opened book. The functions carry them and do
// nothing when run.
ghost use Rattle.law.specs.AccountsLaw.{NoMegawattLost};
ghost use Rattle.law.specs.BeginsLaw.{BeginsExactlyWhenDue};
ghost use Rattle.law.specs.KeepsLaw.{EveryCallKeeps};
ghost use Rattle.law.specs.MatchLaw.{OneFate, OnlyOneFate};
ghost use Rattle.law.specs.TurnLaw.{TakenInTurn, OnlySubmitsTake};

// What every book keeps is kept by every call.
pub fn show_every_call_keeps()
    ensures { EveryCallKeeps }
{}

// No account is ever below zero; the accounts add up to what was posted and are the sums that the book answers.
pub fn show_no_megawatt_lost()
    ensures { NoMegawattLost }
{}

// Whoever gave way was outranked and open, and where something was taken every earlier defender is left bare; only
// submits take.
pub fn show_taken_in_turn()
    ensures rightly { TakenInTurn }
    ensures only { OnlySubmitsTake }
{}

// What was set aside is wholly aside, came back whole in time, or went over whole: exactly one of the three.
pub fn show_one_fate()
    ensures fate { OneFate }
    ensures alone { OnlyOneFate }
{}

// Somebody gives way by a submit exactly when preemption is due.
pub fn show_begins_when_due()
    ensures { BeginsExactlyWhenDue }
{}
