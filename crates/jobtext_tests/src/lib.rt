// Tests of job text: every fault of it at both edges, and what is written where.
#![tactic(auto)]

#[cfg(test)]
mod faults;
#[cfg(test)]
mod takes;
#[cfg(test)]
mod texts;
