// The memory of a book, lent by its owner: posted days, free amounts, places for records, journal lines.
#![tactic(auto)]

pub mod memory;
pub mod opening;
pub mod reading;
pub mod record;
pub mod sums;
