// The calls that come after a request is entered: confirm, withdraw, decline, and settling what is due.
#![tactic(auto)]

pub mod by_aref;
pub mod settling;
