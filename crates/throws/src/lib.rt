//! Sources of words, and throws made of their words.
#![tactic(auto)]

pub mod source;
pub mod throw;
