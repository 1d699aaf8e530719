ghost use Rattle.std.specs.Prelude.{◌≡◌};
ghost use Rattle.design.specs.Design.{Standing, Began, Stepped, Shared, Taken, SoundStanding, ways_of};
ghost use Rattle.design.specs.Laws.{PrescribedFirst, OneNumerator};
ghost use Rattle.design.specs.declared.row.Row.{Row};
ghost use Rattle.design.specs.Plans.{Plans, SoundPlans};

use crate::fault::Fault;
use crate::row::Row;

/// A sampling design. Whatever shows these promises is one.
pub trait Design {
    /// What begin does with each list and sample size, fixed by them and the design's settings alone.
    ghost plan: { Self → Plans };

    /// The run that stands: its present tree, with a denominator for each unit.
    ghost tree: { Self → Standing };

    /// Accepts a list and a sample size, or refuses them; refused, no run stands.
    fn begin(&mut self, list: &[Row], n: u32) -> Result<(), Fault>
        ensures begun { Began (plan self.old list.now n) result (tree self.new) }
        ensures settings { plan self.new ≡ plan self.old };

    /// The ways of the next throw, and 0 where the run has come to its outcome or no run stands.
    fn ways(&self) -> u32
        ensures { result ≡ ways_of (tree self.now) };

    /// Goes on to the subtree of the throw d.
    fn step(&mut self, d: u32) -> Result<(), Fault>
        ensures stepped { Stepped (tree self.old) d result (tree self.new) }
        ensures settings { plan self.new ≡ plan self.old };

    /// The inclusion share of the unit k in the present tree: its numerator, and the unit's denominator.
    fn share(&self, k: u32) -> Result<(u64, u64), Fault>
        ensures { Shared (tree self.now) k result };

    /// Whether the unit k is in every outcome of the present tree.
    fn taken(&self, k: u32) -> Result<bool, Fault>
        ensures { Taken (tree self.now) k result }
    {
        let (numerator, denominator) = self.share(k)?;
        Ok(numerator == denominator)
    }

    /// Every plan keeps the limits, and prescribes exact shares; a refusal names row 0 or a row of the list.
    ghost sound: { (s : Self) → SoundPlans (plan s) };

    /// A run that stands has an exact numerator for each unit in its present tree.
    ghost exact: { (s : Self) → SoundStanding (tree s) };
}

/// The rule of share settles its answer, and directly after begin that is the prescribed share.
pub fn shares_stand()
    ensures one_numerator { OneNumerator }
    ensures prescribed_first { PrescribedFirst }
{}
