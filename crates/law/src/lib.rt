// What a book is and keeps, what each call makes of it, and the law over every run of calls.
#![tactic(auto)]

pub mod runs;
pub mod sums;
