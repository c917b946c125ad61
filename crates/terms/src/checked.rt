// A request that was checked. It is made by `check` alone, cannot be copied, and is spent by the one call that takes it.
ghost use Rattle.std.specs.Prelude.{◌≡◌, true, Ok, Err};
ghost use Rattle.terms.specs.Check.{judged, as_read, within_limits};
ghost use Rattle.terms.specs.Limits.{sellable};

use crate::refusal::Refusal;
use crate::request::{Request, RequestForm};
use crate::words::{Kind, Product, mark_from_number};

pub const MOST_MW: u32 = 20_000;

pub const MOST_PRICE: u32 = 1_000_000;

#[derive(Drop)]
pub struct CheckedRequest {
    request: Request,
    ghost checked: { sellable request ≡ true },
}

impl CheckedRequest {
    // What was asked for.
    pub fn request(&self) -> Request
        ensures { result ≡ self.now.request }
    {
        self.request
    }

    // Spends the checked request. It keeps its name, since `Request::from` would not say that anything is spent.
    pub fn into_request(self) -> Request
        ensures { (result ≡ self.request) × (sellable result ≡ true) }
    {
        let CheckedRequest { request } = self;
        request
    }
}

impl RequestForm {
    // The checked request, or the first refusal in their order: unknown numbers, length, MW, price, AREF.
    pub fn check(self) -> Result<CheckedRequest, Refusal>
        ensures { elim result [ Ok c ↦ judged self ≡ Ok c.request | Err e ↦ judged self ≡ Err e ] }
    {
        check_limits(Request {
            aref: self.aref,
            kind: Kind::try_from(self.kind)?,
            product: Product::try_from(self.product)?,
            start: self.start,
            length: self.length,
            mw: self.mw,
            preconfirmed: mark_from_number(self.preconfirmed)?,
            price: self.price,
        })
    }
}

fn check_limits(request: Request) -> Result<CheckedRequest, Refusal>
    ensures { elim result [ Ok c ↦ within_limits request ≡ Ok c.request | Err e ↦ within_limits request ≡ Err e ] }
{
    if !request.product.is_sold_for(request.length) {
        return Err(Refusal::BadLength);
    }
    if !(1..=MOST_MW).contains(&request.mw) {
        return Err(Refusal::BadAmount);
    }
    if request.price > MOST_PRICE {
        return Err(Refusal::BadPrice);
    }
    if request.aref == 0 {
        return Err(Refusal::NoAref);
    }
    Ok(CheckedRequest { request })
}
