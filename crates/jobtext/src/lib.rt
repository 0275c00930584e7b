// Job text: its header and its calls, one at a time, and the answers.
#![tactic(auto)]

pub mod answers;
mod books;
mod calls;
mod headers;
pub mod jobs;
mod readers;
