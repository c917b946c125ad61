// Whether what is free and what the defenders lined up hold meets a request.
ghost use Rattle.std.specs.Prelude.{◌≡◌, ◌+◌, ◌-◌, ◌<◌, ◌≤◌, length, sum_by, nat_le};
ghost use Rattle.std.specs.List.{AllByRecursion};
ghost use Rattle.defending.specs.LinedUp.{lined, InPlaces, held_in_place};
ghost use Rattle.desk.specs.Desks.{view};
ghost use Rattle.desk.specs.Soundness.{Sound};
ghost use Rattle.law.specs.Posting.{each_day, free_on};
ghost use Rattle.law.specs.Preemption.{wanted, holdings};
ghost use Rattle.shelf.specs.Contents.{contents};

use desk::memory::Desk;
use desk::record::Record;
use shelf::Shelf;
use shelf::defender::Defender;
use terms::request::Request;

// What is still short on a day once all that the records lined up hold on it is taken.
pub fn left_short(places: &[Record], shelf: &Shelf<Defender>, day: u32, short: u32) -> u32
    requires { AllByRecursion (λ x. x.place < length places.now) (contents shelf.now) }
    ensures { result ≡ short - sum_by (held_in_place places.now day) (contents shelf.now) }
{
    shelf
        .entries()
        .iter()
        .rev()
        .map(|one| places[one.place].held_on(day))
        .fold(short, u32::saturating_sub)
}

// Is the request met on each day of its term by what is free and what the records lined up hold?
pub fn can_be_met(desk: &Desk, shelf: &Shelf<Defender>, request: &Request) -> bool
    requires sound { Sound desk.now }
    requires there { InPlaces (view desk.now).places (contents shelf.now) }
    requires offered { request.now.start + request.now.length ≤ length desk.now.posted.amounts.now }
    ensures { result ≡ each_day (λ day. nat_le (wanted request.now day) (free_on (view desk.now).lines day + holdings (view desk.now).lines (lined (view desk.now).places (contents shelf.now)) day)) request.now.start request.now.length }
{
    (request.start..request.start + request.length).all(|day| {
        let short = request.mw.saturating_sub(desk.free[day as usize]);
        left_short(desk.places, shelf, day, short) == 0
    })
}
