// One line's book over lent memory, under a rule sheet.
#![tactic(auto)]

ghost use Rattle.std.specs.Prelude.{◌≡◌};
ghost use Rattle.desk.specs.DaySums.{sums_of, ComeTo};
ghost use Rattle.desk.specs.Desks.{view, refusal_over, OpenedOver};
ghost use Rattle.desk.specs.Soundness.{Sound};
ghost use Rattle.law.specs.View.{posted_on};

use desk::memory::Memory;
use desk::sums::Sums;
use journal::line::Line;
use moving::ledger::Ledger;
use sheets::RuleSheet;
use terms::refusal::Refusal;

// Whatever is done with a book, it keeps what every book keeps: that is in its type.
#[derive(Drop)]
pub struct Book<'a, S: RuleSheet> {
    sheet: S,
    ledger: Ledger<'a>,
    ghost sound: { ∥ Sound ledger.desk ∥₁ },
}

impl<'a, S: RuleSheet> Book<'a, S> {
    // Opens a book over lent memory. It cannot refuse: over matter that `Memory::check` refuses it is a book of no days,
    // places or lines.
    pub fn open(sheet: S, memory: Memory<'a>) -> Book<'a, S>
        ensures sheet { result.sheet ≡ sheet }
        ensures memory { OpenedOver memory.entry result.ledger.desk (refusal_over memory.entry) }
    {
        let desk = memory.open();
        Book {
            sheet,
            ledger: Ledger { desk },
        }
    }

    // The journal so far, line for line.
    pub fn journal(&self) -> &[Line]
        ensures { result.now ≡ (view self.now.ledger.desk).lines }
    {
        self.ledger.desk.journal()
    }

    // The four sums of a posted day, equal to the journal's accounts; they come to what was posted.
    pub fn sums(&self, day: u32) -> Result<Sums, Refusal>
        ensures value { result ≡ sums_of (view self.now.ledger.desk) day }
        ensures whole { ComeTo (posted_on (view self.now.ledger.desk).days day) result }
    {
        self.ledger.desk.sums(day)
    }
}
