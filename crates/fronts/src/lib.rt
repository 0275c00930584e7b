// The planner: the fronts of a board's rows, made one from the other inside a lent list.
#![tactic(auto)]

mod back;
mod by_level;
mod limits;
mod merge;
pub mod plan;
pub mod row;
pub mod rows;
