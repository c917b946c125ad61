// Receipts for journal lines: each is owed until it is laid aside or its notices are written.
#![tactic(auto)]

mod notice;
mod output;
pub mod receipt;
