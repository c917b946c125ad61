// Moving: MW from side to side of a ledger, day by day.
#![tactic(auto)]

pub mod ledger;

ghost use Rattle.std.specs.Prelude.{◌≡◌, ◌≤◌, nat_le};
ghost use Rattle.std.specs.List.{list_all};
ghost use Rattle.journal.specs.Accounts.{balance};
ghost use Rattle.law.specs.Posting.{busy_days};
ghost use Rattle.desk.specs.Desks.{view};
ghost use Rattle.posting.specs.Sides.{account};
ghost use Rattle.moving.specs.Midway.{Midway};
ghost use Rattle.moving.specs.Moves.{Along};

use desk::memory::Desk;
use journal::line::LineKind;
use posting::sides::{Side, standing_in};

// Lines of one kind between a and b, from one side to another, of at most so many MW a day.
#[derive(Clone, Copy, Debug, PartialEq, Eq)]
pub struct Move {
    pub minute: u32,
    pub kind: LineKind,
    pub a: u32,
    pub b: u32,
    pub giver: Side,
    pub taker: Side,
    pub most: u32,
}

// Does each of some amounts reach so many MW?
pub fn each_reaches(amounts: &[u32], mw: u32) -> bool
    ensures { result ≡ list_all (λ amount. nat_le mw amount) amounts.now }
{
    amounts.iter().all(|amount| *amount >= mw)
}

// On how many of so many days something stands on a side. It only looks, so that whoever is shown a desk may ask.
pub fn count_busy(desk: &Desk, side: Side, start: u32, days: u32) -> u32
    requires midway { Midway desk.now }
    requires there { Along desk.now side start days }
    ensures count { result ≡ busy_days (balance (view desk.now).lines (account desk.now.places.now side)) start days }
    ensures few { result ≤ days }
{
    let mut count = 0;
    for day in start..start + days {
        if standing_in(desk, side, day) > 0 {
            count += 1;
        }
    }
    count
}
