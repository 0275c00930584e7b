// Whole lives of books: calls as values, books that follow them, and what they answer at the end.
#![tactic(auto)]

pub mod books;
pub mod calls;
pub mod living;
mod periodic;
mod sporadic;
