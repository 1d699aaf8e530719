ghost use Rattle.std.specs.Prelude.{◌≤◌, IfOk, OnErr};
ghost use Rattle.weights.specs.Of.{HasNone, SetFor};

use crate::Weights;
use crate::scale::find_scale;
use crate::weighing::weigh;
use bounded::BoundedVec;
use design::design::Design;
use design::fault::Fault;
use design::limits::MOST_ROWS;
use std::alloc::{AllocError, Global};

impl Weights {
    /// The weights of no units, and room for those of every frame, so that no later call needs memory.
    pub fn new(heap: Global) -> Result<Self, AllocError>
        ensures { IfOk result HasNone }
    {
        let of_units = BoundedVec::new(heap)?;
        Ok(Weights { scale: 1, of_units })
    }

    // Like `set_for`, but refused it leaves scale and weights half done.
    fn try_for<D: Design>(&mut self, design: &D, units: u32) -> Result<(), Fault>
        requires { units ≤ 1024 }
        ensures { SetFor D.Design design.now units self.new result }
    {
        self.scale = find_scale(design, units)?;
        weigh(design, units, self.scale, &mut self.of_units)
    }

    /// Works out the scale and the weights of a design that has just begun on so many units. Refused, no weights are left; of
    /// a design that has not just begun, only that is promised.
    pub fn set_for<D: Design>(&mut self, design: &D, units: u32) -> Result<(), Fault>
        ensures answers { SetFor D.Design design.now units self.new result }
        ensures refused { OnErr result (HasNone self.new) }
    {
        // No design accepts more units.
        let done = self.try_for(design, units.min(MOST_ROWS as u32));
        if done.is_err() {
            self.scale = 1;
            self.of_units.clear();
        }
        done
    }
}
