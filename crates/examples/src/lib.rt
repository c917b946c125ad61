// Worked runs of the definitions: the functions carry what they show and do nothing when run.
#![tactic(auto)]

ghost use Rattle.sheets.specs.Laws.{Lawful};
ghost use Rattle.examples.specs.AlwaysOpen.{always_open};
ghost use Rattle.examples.specs.Witness.{Witness};
ghost use Rattle.examples.specs.Worked.{WorkedExample};

// The sheet that is open throughout keeps the laws of every sheet.
pub fn show_always_open()
    ensures { Lawful always_open }
{}

// A challenge and its match come out in the numbers that are worked out by hand.
pub fn show_worked_example()
    ensures { WorkedExample }
{}

// One run has a supersede, a recall, a match with its extension, a decline, a lapse, a release and a flown record.
pub fn show_witness()
    ensures { Witness }
{}
