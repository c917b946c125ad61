// What a defender gives on one day.
ghost use Rattle.std.specs.Prelude.{◌≡◌, ◌+◌, ◌<◌, ◌≤◌, min, length, take, sum};
ghost use Rattle.desk.specs.Desks.{view};
ghost use Rattle.law.specs.Posting.{holding};
ghost use Rattle.law.specs.Preemption.{short as short_there};
ghost use Rattle.posting.specs.Postable.{with_lines};
ghost use Rattle.preempting.specs.Giving.{Giveable, given_kind, given_on, taker_side};
ghost use Rattle.preempting.specs.Visits.{ShortShown};

use crate::giving::Giving;
use journal::line::{Line, LineKind};
use moving::ledger::Ledger;
use posting::line_posting::post_line;
use posting::sides::{Side, standing_in};
use terms::request::Request;

impl Giving {
    // The kind of line by which it gives.
    fn kind(&self) -> LineKind
        ensures { result ≡ given_kind self.now.right }
    {
        if self.right {
            LineKind::SetAside
        } else {
            LineKind::Recalled
        }
    }

    // Where what it gives goes.
    fn taker(&self) -> Side
        ensures { result ≡ taker_side self.now }
    {
        if self.right {
            Side::Aside(self.place)
        } else {
            Side::Held(self.challenger)
        }
    }
}

// Gives on a day the lesser of what is held and what is short, and answers how much that is.
pub fn give_on(
    ledger: &mut Ledger,
    giving: &Giving,
    request: &Request,
    short: &mut [u32],
    day: u32,
) -> u32
    requires may { Giveable ledger.old.desk giving.now request.now }
    requires own { (giving.now.start ≤ day) × (day < giving.now.start + giving.now.days) }
    requires short { ShortShown request.now (view ledger.old.desk).lines short.old }
    requires month { request.now.length ≤ 31 }
    requires inside { request.now.start + request.now.length ≤ 400 }
    requires roomy { length (given_on giving.now request.now day (view ledger.old.desk).lines) ≤ (view ledger.old.desk).room }
    ensures view { view ledger.new.desk ≡ with_lines (view ledger.old.desk) (given_on giving.now request.now day (view ledger.old.desk).lines) }
    ensures short { ShortShown request.now (given_on giving.now request.now day (view ledger.old.desk).lines) short.new }
    ensures left { sum (take request.now.length short.new) + result ≡ sum (take request.now.length short.old) }
{
    if !(request.start..request.start + request.length).contains(&day) {
        return 0;
    }
    let index = (day - request.start) as usize;
    let giver = Side::Held(giving.place);
    let mw = standing_in(&ledger.desk, giver, day).min(short[index]);
    let line = Line {
        minute: giving.minute,
        kind: giving.kind(),
        a: giving.aref,
        b: request.aref,
        day,
        mw,
    };
    post_line(&mut ledger.desk, line, giver, giving.taker());
    short[index] -= mw;
    mw
}
