//! Surveys over designs and sources, run as tests.
#![tactic(auto)]

mod calls;
mod refusals;
mod worked;
