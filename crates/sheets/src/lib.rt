// The rule sheet: the questions that a book asks of a tariff, and what the answers owe.
#![tactic(auto)]

pub mod falling_due;
pub mod minutes;

ghost use Rattle.std.specs.Prelude.{◌≡◌};
ghost use Rattle.sheets.specs.Laws.{Lawful};
ghost use Rattle.sheets.specs.Rules.{Rules};
ghost use Rattle.terms.specs.Days.{days_of};

use terms::posted::Posted;
use terms::request::{Request, Standing};

// A rule sheet is known by its answers alone: one meaning, the same at every call, which keeps the laws.
pub trait RuleSheet {
    ghost rules: { Self → Rules };

    // Does the sheet take this request?
    fn carries(&self, request: &Request) -> bool
        ensures { result ≡ (rules self.now).carries request.now };

    // Does the challenger outrank the defender?
    fn outranks(&self, challenger: &Request, defender: &Standing) -> bool
        ensures { result ≡ (rules self.now).outranks challenger.now defender.now };

    // Does the one give way before the other?
    fn gives_before(&self, one: &Standing, other: &Standing) -> bool
        ensures { result ≡ (rules self.now).gives_before one.now other.now };

    // Has the defender the right of first refusal: may it match the challenger?
    fn may_match(&self, challenger: &Request, defender: &Standing) -> bool
        ensures { result ≡ (rules self.now).may_match challenger.now defender.now };

    // May the challenger challenge at this minute?
    fn in_time(&self, challenger: &Request, minute: u32, posted: &Posted) -> bool
        ensures { result ≡ (rules self.now).in_time challenger.now minute (days_of posted.now) };

    // May the challenger take from the defender at this minute?
    fn is_open(
        &self,
        challenger: &Request,
        defender: &Standing,
        minute: u32,
        posted: &Posted,
    ) -> bool
        ensures { result ≡ (rules self.now).is_open challenger.now defender.now minute (days_of posted.now) };

    // The last minute at which the defender may match a challenge made at this minute.
    fn answer_by(
        &self,
        challenger: &Request,
        defender: &Standing,
        minute: u32,
        posted: &Posted,
    ) -> u64
        ensures { result ≡ (rules self.now).answer_by challenger.now defender.now minute (days_of posted.now) };

    // How many minutes an offer to a pending record stands.
    fn confirm_time(&self, pending: &Standing) -> u32
        ensures { result ≡ (rules self.now).confirm_time pending.now };

    ghost lawful: { (sheet : Self) → Lawful (rules sheet) };
}
