// Defending: who gives way to a challenger, in turn, whether that is enough, and how many journal lines it takes. Nothing
// here changes a book.
#![tactic(auto)]

pub mod enough;
pub mod shortage;
pub mod size;
pub mod turn;
