//! The scale of a frame, and the design weight of each unit.
#![tactic(auto)]

ghost use Rattle.std.specs.Prelude.{◌≤◌, length};
ghost use Rattle.weights.specs.Scale.{NoneTooHeavy};

use bounded::BoundedVec;
use design::limits::MOST_ROWS;

pub mod scale;
mod setting;
pub mod terms;
mod values;
pub mod weighing;

/// The scale of a frame, and the design weight of each of its units.
#[derive(Drop)]
pub struct Weights {
    scale: u32,
    of_units: BoundedVec<u32, MOST_ROWS>,
    pub ghost scale_within: { scale ≤ 1000000 },
    pub ghost weights_within: { NoneTooHeavy of_units },
    // Repeated here, as who holds a BoundedVec sees its items only, and not its invariant.
    pub ghost few: { length of_units ≤ 1024 },
}
