// The figures of a board: processor, tasks, periods and measures, and the faults that a book answers.
#![tactic(auto)]

pub mod dues;
pub mod faults;
pub mod levels;
pub mod measures;
pub mod offers;
pub mod periods;
pub mod processors;
mod ranges;
pub mod tasks;
