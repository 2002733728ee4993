// Tests from outside, of calls that no program and no other crate makes: a complaint's number, and what a number tells.
#![tactic(auto)]

#[cfg(test)]
mod complaints;
mod numbers;
