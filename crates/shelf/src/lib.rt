// The ordered shelf: entries of one kind, kept in order over lent slots. They come off it in order, none lost and none
// twice.
#![tactic(auto)]

pub mod defender;
pub mod due;
pub mod order;
pub mod putting;
pub mod reading;
pub mod taking;

ghost use Rattle.std.specs.Prelude.{◌≤◌, length};

// The entry that comes off first stands in the last used slot, so that taking it off moves no other. The slots are lent,
// with a count beside, because no call may allocate.
#[derive(Drop)]
pub struct Shelf<'a, T> {
    slots: &'a mut [T],
    used: usize,
    ghost fits: { used ≤ length slots.now },
}
