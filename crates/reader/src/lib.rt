//! Reads a frame file, exactly: what is read is what is written of the frame, and a refusal is of the first fault in the file.
#![tactic(auto)]

mod cut;
mod fields;
mod line;
mod lines;
mod number;
pub mod reading;
