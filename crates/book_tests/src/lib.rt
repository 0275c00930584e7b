// Tests of both books: every refusal at both of its edges, the order of checks, and what a refused call leaves.
#![tactic(auto)]

#[cfg(test)]
mod answers;
#[cfg(test)]
mod periodic;
#[cfg(test)]
mod sporadic;
