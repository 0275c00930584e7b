// Numbers as text, and the text of answers.
#![tactic(auto)]

pub mod answers;
pub mod faults;
pub mod kinds;
pub mod numbers;
