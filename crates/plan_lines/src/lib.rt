// The lines in which a program tells of plans and of measures.
#![tactic(auto)]

pub mod answers;
mod costs;
pub mod measures;
