// What a plan is: rows, beginnings, fronts, places and the answer of planning, and what holds of them.
// The definitions are in specs/; this crate has the types that they share with the planner's code,
// and a function for each theorem about them.
#![tactic(auto)]

pub mod figures;
pub mod states;
pub mod theorems;
