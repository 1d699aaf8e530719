//! The response to a frame file: the sample that its frame gives, or the fault, as text.
#![tactic(auto)]

mod asking;
mod columns;
mod designing;
mod drawing;
mod failure;
mod reporting;
pub mod respond;
mod sampling;
