// Preemption: the defenders give way in turn, and the challenger takes what they give.
#![tactic(auto)]

pub mod challenging;
pub mod given;
pub mod giving;
pub mod superseding;
