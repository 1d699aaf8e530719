//! Frame files that are read, and refusals of them, run as tests.
#![tactic(auto)]

mod reading;
