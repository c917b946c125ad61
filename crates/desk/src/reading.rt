// What can be read of a desk.
ghost use Rattle.std.specs.Prelude.{◌≡◌};
ghost use Rattle.desk.specs.Desks.{view};
ghost use Rattle.desk.specs.Soundness.{Sound};

use crate::memory::Desk;
use journal::line::Line;

impl Desk<'_> {
    // The journal so far, line for line.
    pub fn journal(&self) -> &[Line]
        requires { ∥ Sound self.now ∥₁ }
        ensures { result.now ≡ (view self.now).lines }
    {
        &self.lines[..self.used]
    }
}
