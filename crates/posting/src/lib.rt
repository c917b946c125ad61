// Posting: a journal line, and the two amounts in memory that it moves.
#![tactic(auto)]

pub mod line_posting;
pub mod sides;
