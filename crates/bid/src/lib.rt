// The bid sheet: point-to-point service ranked by product, length, commitment and price, challenged in the morning.
#![tactic(auto)]

ghost use Rattle.std.specs.Prelude.{◌≡◌, not};
ghost use Rattle.terms.specs.Standings.{committed};
ghost use Rattle.terms.specs.Words.{is_pending};
ghost use Rattle.bid.specs.Bid.{bid, bid_until, bid_open_until};
ghost use Rattle.terms.specs.Days.{days_of};
ghost use Rattle.bid.specs.BidLaws.{bid_lawful};

use sheets::RuleSheet;
use sheets::minutes::not_past;
use std::cmp::Reverse;
use terms::posted::{Posted, day_of, first_minute, minute_of_day};
use terms::request::{Request, Standing};
use terms::words::{Product, State};

#[derive(Clone, Copy)]
pub struct Bid;

impl Bid {
    // The last minute at which a bid for a start day counts.
    pub fn counts_until(&self, start: u32, posted: &Posted) -> Option<u64>
        ensures { result ≡ bid_until (days_of posted.now) start }
    {
        let preschedule = posted.preschedule_minute(start)?;
        Some(preschedule + 540)
    }

    // The last minute at which a defender is open, rank aside.
    pub fn open_until(&self, defender: &Standing, posted: &Posted) -> Option<u64>
        ensures { result ≡ bid_open_until defender.now (days_of posted.now) }
    {
        match defender.state {
            State::Confirmed | State::Accepted | State::Offered => self.counts_until(
                defender.request.start,
                posted,
            ),
            State::Competing | State::Challenged | State::Gone => None,
        }
    }
}

// What a record's turn goes by: the first difference decides, and the lower goes first.
fn rank(one: &Standing) -> (bool, Product, u32, bool, u32, Reverse<u32>, Reverse<u32>)
    ensures pending { result.0 ≡ not (is_pending one.now.state) }
    ensures product { result.1 ≡ one.now.request.product }
    ensures length { result.2 ≡ one.now.request.length }
    ensures committed { result.3 ≡ committed one.now }
    ensures price { result.4 ≡ one.now.request.price }
    ensures queued { result.5.0 ≡ one.now.queued }
    ensures aref { result.6.0 ≡ one.now.request.aref }
{
    (
        !one.state.is_pending(),
        one.request.product,
        one.request.length,
        one.is_committed(),
        one.request.price,
        Reverse(one.queued),
        Reverse(one.request.aref),
    )
}

impl RuleSheet for Bid {
    ghost rules = { λ _. bid };

    ghost lawful = { λ sheet. bid_lawful };

    fn carries(&self, request: &Request) -> bool {
        !request.kind.is_network()
    }

    fn outranks(&self, challenger: &Request, defender: &Standing) -> bool {
        let d = &defender.request;
        if !challenger.preconfirmed || d.kind.is_network() || challenger.kind.is_network() {
            return false;
        }
        let own = (
            challenger.product,
            challenger.length,
            challenger.preconfirmed,
            challenger.price,
        );
        (d.product, d.length, defender.is_committed(), d.price) < own
    }

    // Pending first, then the lower product, length, commitment and price, the later queue minute, the higher AREF.
    fn gives_before(&self, one: &Standing, other: &Standing) -> bool {
        // many pairs differ in one of these already, and then nothing else has to be read
        if one.state.is_pending() != other.state.is_pending() {
            return one.state.is_pending();
        }
        if one.request.product != other.request.product {
            return one.request.product < other.request.product;
        }
        rank(one) < rank(other)
    }

    fn may_match(&self, challenger: &Request, defender: &Standing) -> bool {
        defender.state.is_confirmed() && self.outranks(challenger, defender)
    }

    fn in_time(&self, challenger: &Request, minute: u32, posted: &Posted) -> bool {
        let clock = minute_of_day(minute);
        (360..=540).contains(&clock)
            && not_past(self.counts_until(challenger.start, posted), minute)
    }

    fn is_open(
        &self,
        _challenger: &Request,
        defender: &Standing,
        minute: u32,
        posted: &Posted,
    ) -> bool {
        not_past(self.open_until(defender, posted), minute)
    }

    fn answer_by(
        &self,
        challenger: &Request,
        _defender: &Standing,
        minute: u32,
        _posted: &Posted,
    ) -> u64 {
        let today = day_of(minute);
        let clock = if challenger.start == today + 1 {
            600
        } else {
            840
        };
        first_minute(today) + clock
    }

    fn confirm_time(&self, pending: &Standing) -> u32 {
        match pending.request.product {
            Product::Daily => 10,
            Product::Weekly => 30,
            Product::Monthly => 120,
        }
    }
}
