// The sides that a line moves MW between, as memory has them.
ghost use Rattle.std.specs.Prelude.{◌≡◌, length};
ghost use Rattle.posting.specs.Sides.{Reach, stands, put_free, put_places};

use desk::memory::Desk;

// Free, flown, what the record in a place holds, and what is set aside of it.
#[derive(Clone, Copy, Debug, PartialEq, Eq)]
pub enum Side {
    Free,
    Flown,
    Held(usize),
    Aside(usize),
}

// What stands on a side on a day; nothing is kept of what has flown.
pub fn standing_in(desk: &Desk, side: Side, day: u32) -> u32
    requires { Reach (length desk.now.free.now) desk.now.places.now side day }
    ensures { result ≡ stands desk.now.free.now desk.now.places.now side day }
{
    let places = &*desk.places;
    match side {
        Side::Free => desk.free[day as usize],
        Side::Flown => 0,
        Side::Held(i) => {
            let record = &places[i];
            record.held[(day - record.standing.request.start) as usize]
        }
        Side::Aside(i) => {
            let record = &places[i];
            record.aside[(day - record.standing.request.start) as usize]
        }
    }
}

// Puts an amount on a side on a day.
pub fn put(desk: &mut Desk, side: Side, day: u32, mw: u32)
    requires { Reach (length desk.old.free.now) desk.old.places.now side day }
    ensures free { desk.new.free.now ≡ put_free desk.old.free.now side day mw }
    ensures places { desk.new.places.now ≡ put_places desk.old.places.now side day mw }
    ensures lines { desk.new.lines.now ≡ desk.old.lines.now }
    ensures used { desk.new.used ≡ desk.old.used }
    ensures clock { desk.new.clock ≡ desk.old.clock }
    ensures top { desk.new.top ≡ desk.old.top }
    ensures posted { desk.new.posted ≡ desk.old.posted }
{
    match side {
        Side::Free => {
            desk.free[day as usize] = mw;
        }
        Side::Flown => {}
        Side::Held(i) => {
            let one = &mut desk.places[i];
            one.held[(day - one.standing.request.start) as usize] = mw;
        }
        Side::Aside(i) => {
            let one = &mut desk.places[i];
            one.aside[(day - one.standing.request.start) as usize] = mw;
        }
    }
}
