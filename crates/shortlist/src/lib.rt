// Lists of a fixed capacity, which lie in the value itself and can be copied.
#![tactic(auto)]

pub mod lists;
