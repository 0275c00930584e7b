// Books of tasks at ports 1 to 48: what is admitted, what stands, and its plans.
#![tactic(auto)]

pub mod capacities;
pub mod periodic;
mod periods;
mod ports;
mod rows;
mod serving;
mod settings;
pub mod sporadic;
mod tasks;
mod turns;
