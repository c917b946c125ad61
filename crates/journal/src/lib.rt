// The journal: its lines, and what each kind of line does.
#![tactic(auto)]

pub mod double_entry;
pub mod line;
