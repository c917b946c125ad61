// The firm sheet: daily, weekly and monthly firm service, point-to-point and network.
#![tactic(auto)]

ghost use Rattle.std.specs.Prelude.{◌≡◌, ◌^◌, ◌<◌, not};
ghost use Rattle.terms.specs.Standings.{committed};
ghost use Rattle.terms.specs.Words.{is_pending};
ghost use Rattle.sheets.specs.Turn.{turn_by};
ghost use Rattle.firm.specs.Firm.{firm, outlasts, firm_order, firm_in_time_until, firm_open_until, firm_confirmed_until, firm_confirm_time};
ghost use Rattle.terms.specs.Days.{days_of};
ghost use Rattle.firm.specs.FirmLaws.{firm_lawful};

use sheets::RuleSheet;
use sheets::minutes::not_past;
use std::cmp::Reverse;
use terms::posted::{Posted, first_minute};
use terms::request::{Request, Standing};
use terms::words::{Kind, Product, State};

#[derive(Clone, Copy)]
pub struct Firm;

impl Firm {
    // The last minute at which a challenger is in time.
    pub fn in_time_until(&self, challenger: &Request, posted: &Posted) -> Option<u64>
        ensures { result ≡ firm_in_time_until challenger.now (days_of posted.now) }
    {
        let preschedule = posted.preschedule_minute(challenger.start)?;
        if challenger.kind.is_network() {
            return Some(preschedule + 60);
        }
        match challenger.product {
            Product::Daily => preschedule.checked_sub(4_260),
            Product::Weekly => preschedule.checked_sub(8_640),
            Product::Monthly => preschedule.checked_sub(12_960),
        }
    }

    // The last minute at which a challenger may take from a defender, rank aside.
    pub fn open_until(
        &self,
        challenger: &Request,
        defender: &Standing,
        posted: &Posted,
    ) -> Option<u64>
        ensures { result ≡ firm_open_until challenger.now defender.now (days_of posted.now) }
    {
        let preschedule = posted.preschedule_minute(defender.request.start)?;
        match defender.state {
            State::Accepted | State::Offered => Some(preschedule + 720),
            State::Confirmed => {
                let start = first_minute(defender.request.start);
                confirmed_until(
                    challenger.kind,
                    defender.request.product,
                    preschedule,
                    start,
                )
            }
            State::Competing | State::Challenged | State::Gone => None,
        }
    }
}

fn confirmed_until(challenger: Kind, product: Product, preschedule: u64, start: u64) -> Option<u64>
    requires { preschedule < 2 ^ 43 }
    ensures { result ≡ firm_confirmed_until challenger product preschedule start }
{
    match (challenger, product) {
        (Kind::PointToPoint, Product::Daily) => preschedule.checked_sub(2_820),
        (Kind::PointToPoint, Product::Weekly) => start.checked_sub(12_960),
        (Kind::PointToPoint, Product::Monthly) => start.checked_sub(50_400),
        (Kind::Network, Product::Daily) => Some(preschedule + 60),
        (Kind::Network, Product::Weekly) => start.checked_sub(10_080),
        (Kind::Network, Product::Monthly) => start.checked_sub(43_200),
    }
}

// Is the challenger longer, or as long as a defender that is not committed?
pub fn outlasts(challenger: &Request, defender: &Standing) -> bool
    ensures { result ≡ outlasts challenger.now defender.now }
{
    challenger.length > defender.request.length
        || (challenger.length == defender.request.length && !defender.is_committed())
}

// What a record's turn goes by: the first difference decides, and the lower goes first.
fn rank(one: &Standing) -> (bool, u32, bool, Reverse<u32>, Reverse<u32>)
    ensures pending { result.0 ≡ not (is_pending one.now.state) }
    ensures length { result.1 ≡ one.now.request.length }
    ensures committed { result.2 ≡ committed one.now }
    ensures queued { result.3.0 ≡ one.now.queued }
    ensures aref { result.4.0 ≡ one.now.request.aref }
{
    (
        !one.state.is_pending(),
        one.request.length,
        one.is_committed(),
        Reverse(one.queued),
        Reverse(one.request.aref),
    )
}

// Pending first, then the shorter length, who is not committed, the later queue minute, the higher AREF.
pub fn firm_turn(one: &Standing, other: &Standing) -> bool
    ensures { result ≡ turn_by firm_order one.now other.now }
{
    // many pairs differ in this already, and then nothing else has to be read
    if one.state.is_pending() != other.state.is_pending() {
        return one.state.is_pending();
    }
    rank(one) < rank(other)
}

// How many minutes an offer of a product stands.
pub fn firm_confirm_time(product: Product) -> u32
    ensures { result ≡ firm_confirm_time product }
{
    match product {
        Product::Daily => 120,
        Product::Weekly | Product::Monthly => 1_440,
    }
}

impl RuleSheet for Firm {
    ghost rules = { λ _. firm };

    ghost lawful = { λ sheet. firm_lawful };

    fn carries(&self, _request: &Request) -> bool {
        true
    }

    fn outranks(&self, challenger: &Request, defender: &Standing) -> bool {
        if !challenger.preconfirmed || defender.request.kind.is_network() {
            return false;
        }
        challenger.kind.is_network()
            || (challenger.product >= defender.request.product && outlasts(challenger, defender))
    }

    fn gives_before(&self, one: &Standing, other: &Standing) -> bool {
        firm_turn(one, other)
    }

    fn may_match(&self, challenger: &Request, defender: &Standing) -> bool {
        defender.state.is_confirmed()
            && !challenger.kind.is_network()
            && self.outranks(challenger, defender)
    }

    fn in_time(&self, challenger: &Request, minute: u32, posted: &Posted) -> bool {
        not_past(self.in_time_until(challenger, posted), minute)
    }

    fn is_open(
        &self,
        challenger: &Request,
        defender: &Standing,
        minute: u32,
        posted: &Posted,
    ) -> bool {
        not_past(self.open_until(challenger, defender, posted), minute)
    }

    fn answer_by(
        &self,
        _challenger: &Request,
        _defender: &Standing,
        minute: u32,
        _posted: &Posted,
    ) -> u64 {
        u64::from(minute) + 1_440
    }

    fn confirm_time(&self, pending: &Standing) -> u32 {
        firm_confirm_time(pending.request.product)
    }
}
