// What falls due first.
#![tactic(auto)]

ghost use Rattle.std.specs.Prelude.{◌≤◌, map, length};
ghost use Rattle.desk.specs.Records.{entry_of};
ghost use Rattle.dues.specs.FirstDue.{IsFirstDue};

use desk::opening::MOST_PLACES;
use desk::record::Record;
use looking::fell_due;
use shelf::Shelf;
use shelf::due::{ByMinute, Due};

// The place of the earliest item due before the minute: what is due goes on a shelf, and the first comes off. The slots are
// as many as a book can have places, since no call may allocate.
pub fn first_due(places: &[Record], minute: u32) -> Option<usize>
    requires { length places.now ≤ 128 }
    ensures { IsFirstDue (map entry_of places.now) minute result }
{
    let none = Due {
        minute: 0,
        aref: 0,
        place: 0,
    };
    let mut slots = [none; MOST_PLACES];
    let mut shelf = Shelf::over(&mut slots);
    for (place, one) in places.iter().enumerate().rev() {
        if fell_due(one, minute) {
            let item = Due {
                minute: one.due,
                aref: one.standing.request.aref,
                place,
            };
            shelf.put(&ByMinute, item).unwrap();
        }
    }
    shelf.take_first().map(|item| item.place)
}
