//! The frame file: what it holds, how it is written, and what can be wrong in it.
#![tactic(auto)]

pub mod fault;
pub mod frame;
