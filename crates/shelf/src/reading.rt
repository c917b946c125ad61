// An empty shelf, and what stands on a shelf without taking it off.
ghost use Rattle.std.specs.Prelude.{◌≡◌, [], length, take};
ghost use Rattle.std.specs.List.{slice_get};
ghost use Rattle.shelf.specs.Contents.{contents, room};

use crate::Shelf;

impl<'a, T: Copy> Shelf<'a, T> {
    // An empty shelf with room for as many entries as there are slots.
    pub fn over(slots: &'a mut [T]) -> Shelf<'a, T>
        ensures empty { contents result ≡ [] }
        ensures holds { room result ≡ length slots.old }
    {
        Shelf { slots, used: 0 }
    }

    // The entries in their slots: the one that comes off first stands last.
    pub fn entries(&self) -> &[T]
        ensures { result.now ≡ take self.now.used self.now.slots.now }
    {
        let slots: &[T] = self.slots;
        &slots[..self.used]
    }

    // How many entries stand on the shelf.
    pub fn len(&self) -> usize
        ensures { result ≡ length (contents self.now) }
    {
        self.used
    }

    // The entry that comes off after so many others; none past the last.
    pub fn at(&self, others: usize) -> Option<T>
        ensures { result ≡ slice_get (contents self.now) others }
    {
        let slot = self.used.checked_sub(1)?.checked_sub(others)?;
        self.entries().get(slot).copied()
    }
}
