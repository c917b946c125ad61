// Kind and product of a service and the state of a record, with the number and the word that stand for each.
ghost use Rattle.std.specs.Prelude.{◌≡◌, Some};
ghost use Rattle.std.specs.Option.{ok_or};
ghost use Rattle.terms.specs.Numbers.{kind_number, kind_of, product_number, product_of, state_number, mark_of};
ghost use Rattle.terms.specs.Limits.{sold_length};
ghost use Rattle.terms.specs.Words.{is_pending, is_confirmed, is_challenged, is_living, is_network};
ghost use Rattle.terms.specs.declared.refusal.Refusal.TheVariants.{UnknownNumber};

use crate::refusal::Refusal;
use std::fmt;

// Point-to-point or network service.
#[derive(Clone, Copy, Debug, PartialEq, Eq)]
pub enum Kind {
    PointToPoint,
    Network,
}

impl From<Kind> for u32 {
    ghost from_gives = { λ kind number. (number ≡ kind_number kind) × (kind_of number ≡ Some kind) };

    fn from(kind: Kind) -> u32 {
        match kind {
            Kind::PointToPoint => 1,
            Kind::Network => 2,
        }
    }
}

impl TryFrom<u32> for Kind {
    type Error = Refusal;

    ghost try_from_gives = { λ number answer. answer ≡ ok_or (kind_of number) UnknownNumber };

    fn try_from(number: u32) -> Result<Kind, Refusal> {
        match number {
            1 => Ok(Kind::PointToPoint),
            2 => Ok(Kind::Network),
            _ => Err(Refusal::UnknownNumber),
        }
    }
}

impl Kind {
    pub fn is_network(self) -> bool
        ensures { result ≡ is_network self }
    {
        matches!(self, Kind::Network)
    }
}

// The span that service is sold by; a later one is the higher product.
#[derive(Clone, Copy, Debug, PartialEq, Eq, PartialOrd, Ord)]
pub enum Product {
    Daily,
    Weekly,
    Monthly,
}

impl From<Product> for u32 {
    ghost from_gives = { λ product number. (number ≡ product_number product) × (product_of number ≡ Some product) };

    fn from(product: Product) -> u32 {
        match product {
            Product::Daily => 1,
            Product::Weekly => 2,
            Product::Monthly => 3,
        }
    }
}

impl TryFrom<u32> for Product {
    type Error = Refusal;

    ghost try_from_gives = { λ number answer. answer ≡ ok_or (product_of number) UnknownNumber };

    fn try_from(number: u32) -> Result<Product, Refusal> {
        match number {
            1 => Ok(Product::Daily),
            2 => Ok(Product::Weekly),
            3 => Ok(Product::Monthly),
            _ => Err(Refusal::UnknownNumber),
        }
    }
}

impl fmt::Display for Product {
    fn fmt<W: fmt::Write>(&self, f: &mut fmt::Formatter<W>) -> fmt::Result {
        f.pad(match self {
            Product::Daily => "daily",
            Product::Weekly => "weekly",
            Product::Monthly => "monthly",
        })
    }
}

impl Product {
    // Is the product sold for so many days?
    pub fn is_sold_for(self, days: u32) -> bool
        ensures { result ≡ sold_length self days }
    {
        match self {
            Product::Daily => matches!(days, 1..=31),
            Product::Weekly => matches!(days, 7 | 14 | 21 | 28),
            Product::Monthly => matches!(days, 28..=31),
        }
    }
}

// Where a record stands: accepted is whole and offered a part, both unconfirmed; competing is a challenger whose
// matches are open, challenged a defender whose match is open.
#[derive(Clone, Copy, Debug, PartialEq, Eq)]
pub enum State {
    Confirmed,
    Accepted,
    Offered,
    Competing,
    Challenged,
    Gone,
}

impl From<State> for u32 {
    ghost from_gives = { λ state number. number ≡ state_number state };

    fn from(state: State) -> u32 {
        match state {
            State::Confirmed => 1,
            State::Accepted => 2,
            State::Offered => 3,
            State::Competing => 4,
            State::Challenged => 5,
            State::Gone => 6,
        }
    }
}

impl fmt::Display for State {
    fn fmt<W: fmt::Write>(&self, f: &mut fmt::Formatter<W>) -> fmt::Result {
        f.pad(match self {
            State::Confirmed => "confirmed",
            State::Accepted => "accepted",
            State::Offered => "offered",
            State::Competing => "competing",
            State::Challenged => "challenged",
            State::Gone => "gone",
        })
    }
}

impl State {
    pub fn is_pending(self) -> bool
        ensures { result ≡ is_pending self }
    {
        matches!(self, State::Accepted | State::Offered)
    }

    pub fn is_confirmed(self) -> bool
        ensures { result ≡ is_confirmed self }
    {
        matches!(self, State::Confirmed)
    }

    pub fn is_challenged(self) -> bool
        ensures { result ≡ is_challenged self }
    {
        matches!(self, State::Challenged)
    }

    pub fn is_living(self) -> bool
        ensures { result ≡ is_living self }
    {
        !matches!(self, State::Gone)
    }
}

// The preconfirmed mark: 0 is no, 1 is yes. Number and truth value are both the library's, so no `TryFrom` between
// them can be written here.
pub fn mark_from_number(number: u32) -> Result<bool, Refusal>
    ensures { result ≡ ok_or (mark_of number) UnknownNumber }
{
    match number {
        0 => Ok(false),
        1 => Ok(true),
        _ => Err(Refusal::UnknownNumber),
    }
}
