// Taking entries off a shelf, first to last.
ghost use Rattle.std.specs.Prelude.{◌≡◌};
ghost use Rattle.shelf.specs.Contents.{contents, room, ComesOff};

use crate::Shelf;

impl<T: Copy> Shelf<'_, T> {
    // Takes the first entry off; none where the shelf is empty.
    pub fn take_first(&mut self) -> Option<T>
        ensures off { ComesOff result (contents self.old) (contents self.new) }
        ensures same_room { room self.new ≡ room self.old }
    {
        let last = self.used.checked_sub(1)?;
        self.used = last;
        Some(self.slots[last])
    }
}
