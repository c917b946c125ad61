// Entering a request: whether free covers it, and the record that it becomes.
#![tactic(auto)]

pub mod granting;
pub mod measuring;
