// Tests of the text of answers, byte by byte, and of numbers at the edges of their form.
#![tactic(auto)]

#[cfg(test)]
mod answers;
#[cfg(test)]
mod numbers;
