//! The lines that are printed of a sample, and of a refusal.
#![tactic(auto)]

pub mod text;
