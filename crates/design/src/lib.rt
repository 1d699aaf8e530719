//! What a design is: rows, faults, the calls of a design and what they mean, and the checks of a list that designs share.
#![tactic(auto)]

pub mod check;
pub mod design;
pub mod fault;
pub mod fraction;
pub mod limits;
pub mod row;
