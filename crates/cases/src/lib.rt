//! Worked cases of the designs and the throws, run as tests.
#![tactic(auto)]

mod refusals;
mod throwing;
