// The non-firm sheet: the firm sheet for point-to-point service alone, between records of equal product.
#![tactic(auto)]

ghost use Rattle.std.specs.Prelude.{◌≡◌};
ghost use Rattle.nonfirm.specs.NonFirm.{nonfirm, nonfirm_in_time_until, nonfirm_open_until};
ghost use Rattle.terms.specs.Days.{days_of};
ghost use Rattle.nonfirm.specs.NonFirmLaws.{nonfirm_lawful};

use firm::{firm_confirm_time, firm_turn, outlasts};
use sheets::RuleSheet;
use sheets::minutes::not_past;
use terms::posted::Posted;
use terms::request::{Request, Standing};
use terms::words::{Product, State};

#[derive(Clone, Copy)]
pub struct NonFirm;

impl NonFirm {
    // The last minute at which a challenger is in time.
    pub fn in_time_until(&self, challenger: &Request, posted: &Posted) -> Option<u64>
        ensures { result ≡ nonfirm_in_time_until challenger.now (days_of posted.now) }
    {
        let preschedule = posted.preschedule_minute(challenger.start)?;
        match challenger.product {
            Product::Daily => preschedule.checked_sub(1_440),
            Product::Weekly => preschedule.checked_sub(4_320),
            Product::Monthly => preschedule.checked_sub(5_760),
        }
    }

    // The last minute at which a defender is open, rank aside.
    pub fn open_until(&self, defender: &Standing, posted: &Posted) -> Option<u64>
        ensures { result ≡ nonfirm_open_until defender.now (days_of posted.now) }
    {
        let preschedule = posted.preschedule_minute(defender.request.start)?;
        match defender.state {
            State::Confirmed => preschedule.checked_sub(2_820),
            State::Accepted | State::Offered => Some(preschedule + 720),
            State::Competing | State::Challenged | State::Gone => None,
        }
    }
}

impl RuleSheet for NonFirm {
    ghost rules = { λ _. nonfirm };

    ghost lawful = { λ sheet. nonfirm_lawful };

    fn carries(&self, request: &Request) -> bool {
        !request.kind.is_network()
    }

    fn outranks(&self, challenger: &Request, defender: &Standing) -> bool {
        if !challenger.preconfirmed
            || defender.request.kind.is_network()
            || challenger.kind.is_network()
        {
            return false;
        }
        challenger.product == defender.request.product && outlasts(challenger, defender)
    }

    fn gives_before(&self, one: &Standing, other: &Standing) -> bool {
        firm_turn(one, other)
    }

    fn may_match(&self, challenger: &Request, defender: &Standing) -> bool {
        defender.state.is_confirmed() && self.outranks(challenger, defender)
    }

    fn in_time(&self, challenger: &Request, minute: u32, posted: &Posted) -> bool {
        not_past(self.in_time_until(challenger, posted), minute)
    }

    fn is_open(
        &self,
        _challenger: &Request,
        defender: &Standing,
        minute: u32,
        posted: &Posted,
    ) -> bool {
        not_past(self.open_until(defender, posted), minute)
    }

    fn answer_by(
        &self,
        _challenger: &Request,
        _defender: &Standing,
        minute: u32,
        _posted: &Posted,
    ) -> u64 {
        u64::from(minute) + 1_440
    }

    fn confirm_time(&self, pending: &Standing) -> u32 {
        firm_confirm_time(pending.request.product)
    }
}
