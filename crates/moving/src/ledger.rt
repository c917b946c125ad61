// A ledger: a desk whose memory shows the accounts of its journal. MW move by day, and records are written whole into their
// places.
ghost use Rattle.std.specs.Prelude.{◌≡◌, ℕ, ◌+◌, ◌<◌, ◌≤◌, length, slice_set};
ghost use Rattle.journal.specs.Accounts.{balance};
ghost use Rattle.law.specs.Posting.{by_day, busy_days};
ghost use Rattle.law.specs.View.{count};
ghost use Rattle.desk.specs.Desks.{view};
ghost use Rattle.desk.specs.Records.{entry_of};
ghost use Rattle.desk.specs.Soundness.{Shows};
ghost use Rattle.posting.specs.Postable.{with_lines};
ghost use Rattle.posting.specs.Sides.{account};
ghost use Rattle.moving.specs.Midway.{Midway, with_places};
ghost use Rattle.moving.specs.Moves.{moved, Movable, Along};

use crate::{Move, count_busy};
use desk::memory::Desk;
use desk::record::Record;
use journal::line::{Line, LineKind};
use posting::line_posting::post_line;
use posting::sides::{Side, standing_in};

// What holds of a desk between the postings of a call is in its type, so that no contract has to say it.
#[derive(Drop)]
pub struct Ledger<'a> {
    pub desk: Desk<'a>,
    ghost midway: { ∥ Midway desk ∥₁ },
}

impl Ledger<'_> {
    // Moves on each of so many days what stands on the giver's side, up to the most.
    pub fn move_by_day(&mut self, what: Move, start: u32, days: u32)
        requires may { Movable self.old.desk what start days }
        requires roomy { length (by_day (moved what) start days (view self.old.desk).lines) ≤ (view self.old.desk).room }
        ensures view { view self.new.desk ≡ with_lines (view self.old.desk) (by_day (moved what) start days (view self.old.desk).lines) }
    {
        for day in start..start + days {
            let mw = standing_in(&self.desk, what.giver, day).min(what.most);
            let line = Line {
                minute: what.minute,
                kind: what.kind,
                a: what.a,
                b: what.b,
                day,
                mw,
            };
            post_line(&mut self.desk, line, what.giver, what.taker);
        }
    }

    // On how many of so many days something stands on a side.
    pub fn count_busy(&self, side: Side, start: u32, days: u32) -> u32
        requires there { Along self.now.desk side start days }
        ensures count { result ≡ busy_days (balance (view self.now.desk).lines (account self.now.desk.places.now side)) start days }
        ensures few { result ≤ days }
    {
        count_busy(&self.desk, side, start, days)
    }

    // Writes a record whole into a place.
    pub fn seat(&mut self, place: usize, new: Record)
        requires within { place < length self.old.desk.places.now }
        requires shows { Shows (balance (view self.old.desk).lines) new }
        requires once { (a : ℕ) → count a (slice_set (view self.old.desk).places place (entry_of new)) ≤ 1 }
        ensures view { view self.new.desk ≡ with_places (view self.old.desk) (slice_set (view self.old.desk).places place (entry_of new)) }
    {
        self.desk.places[place] = new;
    }
}
