//! Makers of piles of layers, what a design of any make answers first, and small piles as tests.
#![tactic(auto)]

#[cfg(test)]
mod makers;
pub mod making;
mod refusals;
mod shares;
pub mod whole;
