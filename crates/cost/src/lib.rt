// Kinds of cost: what the planner makes least.
#![tactic(auto)]

pub mod energies;
pub mod kinds;
pub mod pairs;
pub mod peaks;
pub mod sums;
