// A request as it is asked for, and the standing of a record: what a rule sheet reads of it.
ghost use Rattle.std.specs.Prelude.{◌≡◌, ◌+◌, ◌≤◌};
ghost use Rattle.terms.specs.Days.{first_minute};
ghost use Rattle.terms.specs.Standings.{committed};

use crate::posted::MINUTES_A_DAY;
use crate::words::{Kind, Product, State};

// A request as it comes, every field a plain number: kind 1 or 2, product 1 to 3, preconfirmed 0 or 1, days counted
// from 0, the price in cents. They stay numbers, since that is what comes in; `check` is where they meet the enums.
#[derive(Clone, Copy, Debug, PartialEq, Eq)]
pub struct RequestForm {
    pub aref: u32,
    pub kind: u32,
    pub product: u32,
    pub start: u32,
    pub length: u32,
    pub mw: u32,
    pub preconfirmed: u32,
    pub price: u32,
}

// The terms of a request: so many MW, alike on each day of its term, from its start day on.
#[derive(Clone, Copy, Debug, PartialEq, Eq)]
pub struct Request {
    pub aref: u32,
    pub kind: Kind,
    pub product: Product,
    pub start: u32,
    pub length: u32,
    pub mw: u32,
    pub preconfirmed: bool,
    pub price: u32,
}

impl Request {
    // The minute at which its last day is over.
    pub fn over_minute(&self) -> u32
        requires { self.now.start + self.now.length ≤ 400 }
        ensures { result ≡ first_minute (self.now.start + self.now.length) }
    {
        MINUTES_A_DAY * (self.start + self.length)
    }
}

// A record but for its MW: its terms, its state and the minute at which it was queued.
#[derive(Clone, Copy, Debug, PartialEq, Eq)]
pub struct Standing {
    pub request: Request,
    pub state: State,
    pub queued: u32,
}

impl Standing {
    pub fn is_committed(&self) -> bool
        ensures { result ≡ committed self.now }
    {
        self.request.preconfirmed || !self.state.is_pending()
    }
}
