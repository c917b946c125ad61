// The words of the trade: requests and how they are checked, the standing of a record, refusals, and the number of each.
#![tactic(auto)]

pub mod checked;
pub mod posted;
pub mod refusal;
pub mod request;
pub mod words;
