// One line is posted: it is written, and memory moves its MW from the giver's side to the taker's.
ghost use Rattle.std.specs.Prelude.{◌≡◌};
ghost use Rattle.desk.specs.Desks.{view};
ghost use Rattle.law.specs.Posting.{post};
ghost use Rattle.posting.specs.Postable.{Showing, Postable, with_lines};

use crate::sides::{Side, put, standing_in};
use desk::memory::Desk;
use journal::line::Line;

// Nothing is written of no MW.
pub fn post_line(desk: &mut Desk, line: Line, giver: Side, taker: Side)
    requires shown { Showing desk.old }
    requires may { Postable desk.old line.minute line.kind line.a line.b giver taker line.day line.mw }
    ensures shown { Showing desk.new }
    ensures view { view desk.new ≡ with_lines (view desk.old) (post line.minute line.kind line.a line.b line.day line.mw (view desk.old).lines) }
{
    if line.mw > 0 {
        desk.lines[desk.used] = line;
        desk.used += 1;
        let left = standing_in(desk, giver, line.day) - line.mw;
        put(desk, giver, line.day, left);
        let more = standing_in(desk, taker, line.day) + line.mw;
        put(desk, taker, line.day, more);
    }
}
