//! Totals: what weighted readings add up to, kind by kind.
#![tactic(auto)]

pub mod additions;
pub mod money;
pub mod table;
#[cfg(test)]
mod tests;
pub mod total;
