ghost use Rattle.std.specs.Prelude.{◌≡◌, length};
ghost use Rattle.weights.specs.Of.{scale_in, weights_in};

use crate::Weights;

impl Weights {
    /// The scale of the frame.
    pub fn scale(&self) -> u32
        ensures { result ≡ scale_in self.now }
    {
        self.scale
    }

    /// The number of units.
    pub fn units(&self) -> usize
        ensures { result ≡ length (weights_in self.now) }
    {
        self.of_units.len()
    }

    /// The design weight of each unit.
    pub fn as_slice(&self) -> &[u32]
        ensures { result.now ≡ weights_in self.now }
    {
        self.of_units.as_slice()
    }
}
