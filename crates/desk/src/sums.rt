// The four sums of a day.
ghost use Rattle.std.specs.Prelude.{◌≡◌, ◌≤◌, sum_by};
ghost use Rattle.desk.specs.Desks.{view};
ghost use Rattle.desk.specs.DaySums.{sums_of, ComeTo};
ghost use Rattle.desk.specs.Records.{held_on, aside_on};
ghost use Rattle.desk.specs.Soundness.{Sound};
ghost use Rattle.law.specs.View.{posted_on};

use crate::memory::Desk;
use crate::record::Record;
use terms::refusal::Refusal;

// The MW of a day: what is free, what records hold, what is set aside, what has flown.
#[derive(Clone, Copy, Debug, PartialEq, Eq)]
pub struct Sums {
    pub free: u32,
    pub held: u32,
    pub aside: u32,
    pub flown: u32,
}

// What all records hold on a day, and what is set aside of them. Records are long, so both are added up in one pass; two
// chains of sums take twice the time.
fn held_and_aside(places: &[Record], day: u32) -> (u32, u32)
    requires held { sum_by (held_on day) places.now ≤ 20000 }
    requires aside { sum_by (aside_on day) places.now ≤ 20000 }
    ensures held { result.0 ≡ sum_by (held_on day) places.now }
    ensures aside { result.1 ≡ sum_by (aside_on day) places.now }
{
    let mut held = 0;
    let mut aside = 0;
    for one in places {
        held += one.held_on(day);
        aside += one.aside_on(day);
    }
    (held, aside)
}

impl Desk<'_> {
    // The sums of a posted day.
    pub fn sums(&self, day: u32) -> Result<Sums, Refusal>
        requires { ∥ Sound self.now ∥₁ }
        ensures value { result ≡ sums_of (view self.now) day }
        ensures whole { ComeTo (posted_on (view self.now).days day) result }
    {
        let &amount = self
            .posted
            .amounts
            .get(day as usize)
            .ok_or(Refusal::DayNotPosted)?;
        let free = self.free[day as usize];
        let (held, aside) = held_and_aside(self.places, day);
        Ok(Sums {
            free,
            held,
            aside,
            flown: amount - free - held - aside,
        })
    }
}
