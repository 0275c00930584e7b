// Tests of the figures of a board at the edges of every range, both sides.
#![tactic(auto)]

#[cfg(test)]
mod edges;
