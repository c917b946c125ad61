// What a sheet says of a record that a challenger meets, and the record's turn among others.
#![tactic(auto)]

ghost use Rattle.std.specs.Prelude.{◌≡◌, ◌+◌, count_by};
ghost use Rattle.findings.specs.Finding.{found};
ghost use Rattle.terms.specs.Days.{days_of};

use firm::Firm;
use sheets::RuleSheet;
use terms::posted::Posted;
use terms::request::{Request, Standing};

#[derive(Clone, Copy, Debug, PartialEq, Eq)]
pub struct Finding {
    pub outranked: bool,
    pub open_until: Option<u64>,
    pub match_until: Option<u64>,
}

// What the firm sheet says of a record against a challenger at a minute.
pub fn find(challenger: &Request, defender: &Standing, minute: u32, posted: &Posted) -> Finding
    ensures { result ≡ found challenger.now defender.now minute (days_of posted.now) }
{
    Finding {
        outranked: Firm.outranks(challenger, defender),
        open_until: Firm.open_until(challenger, defender, posted),
        match_until: Firm
            .may_match(challenger, defender)
            .then_some(Firm.answer_by(challenger, defender, minute, posted)),
    }
}

// A record's turn among others: one more than how many give before it.
pub fn turn_among<S: RuleSheet>(sheet: &S, one: &Standing, records: &[Standing]) -> usize
    ensures { result ≡ count_by (λ other. (S.rules sheet.now).gives_before other one.now) records.now + 1 }
{
    records
        .iter()
        .filter(|other| sheet.gives_before(other, one))
        .count()
        + 1
}
