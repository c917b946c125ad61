// What a call on a book answers when it is accepted.
#![tactic(auto)]

use terms::words::State;

// The record's AREF and new state, and the lines that the call wrote: the first by its number from 0, and how many.
#[derive(Clone, Copy, Debug, PartialEq, Eq)]
pub struct Done {
    pub aref: u32,
    pub state: State,
    pub first: u32,
    pub count: u32,
}
