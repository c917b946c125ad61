// A record as memory has it.
ghost use Rattle.std.specs.Prelude.{◌≡◌};
ghost use Rattle.desk.specs.Records.{amount_on, vacant, held_on, aside_on};

use terms::request::{Request, Standing};
use terms::words::{Kind, Product, State};

// The longest term is a month. Amounts by day are arrays of so many, by value, so that a record needs no memory of its own.
pub const MOST_DAYS: usize = 31;

// Its standing, the minute at which it falls due, the challenger against whom its match is open, and the MW that it
// holds and that are set aside of it, by day from its start on.
#[derive(Clone, Copy, Debug, PartialEq, Eq)]
pub struct Record {
    pub standing: Standing,
    pub due: u32,
    pub against: u32,
    pub held: [u32; MOST_DAYS],
    pub aside: [u32; MOST_DAYS],
}

impl Record {
    // A place that nobody has.
    pub fn vacant() -> Record
        ensures { result ≡ vacant }
    {
        Record {
            standing: Standing {
                request: Request {
                    aref: 0,
                    kind: Kind::PointToPoint,
                    product: Product::Daily,
                    start: 0,
                    length: 0,
                    mw: 0,
                    preconfirmed: false,
                    price: 0,
                },
                state: State::Gone,
                queued: 0,
            },
            due: 0,
            against: 0,
            held: [0; MOST_DAYS],
            aside: [0; MOST_DAYS],
        }
    }

    // The MW held on a day.
    pub fn held_on(&self, day: u32) -> u32
        ensures { result ≡ held_on day self.now }
    {
        amount_on(&self.held, self.standing.request.start, day)
    }

    // The MW set aside on a day.
    pub fn aside_on(&self, day: u32) -> u32
        ensures { result ≡ aside_on day self.now }
    {
        amount_on(&self.aside, self.standing.request.start, day)
    }
}

// The amount on a day, of amounts by day from a start on; none before and after them.
fn amount_on(amounts: &[u32; MOST_DAYS], start: u32, day: u32) -> u32
    ensures { result ≡ amount_on day start amounts.now }
{
    if day < start {
        return 0;
    }
    let past = (day - start) as usize;
    amounts.get(past).copied().unwrap_or(0)
}
