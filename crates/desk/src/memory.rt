// The memory that an owner lends, before and after a book is opened over it.
use crate::record::Record;
use journal::line::Line;
use terms::posted::Posted;

// What is lent for a book: the posted days, and room for the free amounts, for records and for journal lines. Free amounts
// lie in a slice of their own beside the posted ones, and nothing is allocated, since the owner lends all that a book uses.
#[derive(Drop)]
pub struct Memory<'a> {
    pub posted: Posted<'a>,
    pub free: &'a mut [u32],
    pub places: &'a mut [Record],
    pub lines: &'a mut [Line],
}

// The memory of an open book, with how many lines are written, the minute of the last accepted call and the highest
// AREF accepted.
#[derive(Drop)]
pub struct Desk<'a> {
    pub posted: Posted<'a>,
    pub free: &'a mut [u32],
    pub places: &'a mut [Record],
    pub lines: &'a mut [Line],
    pub used: usize,
    pub clock: u32,
    pub top: u32,
}
