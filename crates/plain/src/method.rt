ghost use Rattle.std.specs.Prelude.{◌≡◌, ℕ, ◌<◌, List};
ghost use Rattle.outcomes.specs.Trees.{Tree, Sample, ways as ways_of, subtree};
ghost use Rattle.design.specs.Plans.{SoundPlans};
ghost use Rattle.plain.specs.Methods.{Accepted, SameRun, HoldShares, plan_from};
ghost use Rattle.plain.specs.Of.{whole, held};
ghost use Rattle.plain.specs.declared.holdings.Holdings.{Holdings};

use crate::holdings::Holdings;

/// A method of drawing: the state of a run, and how its throws settle what the units hold.
pub trait Method: Copy + Default {
    /// The tree of a list, by its total and its goals.
    ghost begun: { ℕ → List ℕ → Tree Sample };

    /// The present tree, by what the units hold.
    ghost tree: { Self → Holdings → Tree Sample };

    /// What belongs together while a run stands.
    ghost kept: { Self → Holdings → Type 0 };

    /// The state before the first throw, when the units hold their goals.
    fn start(units: &Holdings) -> Self
        requires { Accepted units.now }
        ensures tree { tree result units.now ≡ begun (whole units.now) (held units.now) }
        ensures kept { kept result units.now };

    /// The ways of the next throw, and 0, as a design's, where all units are settled.
    fn ways(&self, units: &Holdings) -> u32
        requires { kept self.now units.now }
        ensures { result ≡ ways_of (tree self.now units.now) };

    /// Settles what the throw d settles.
    fn settle(&mut self, units: &mut Holdings, d: u32)
        requires kept { kept self.old units.old }
        requires below { d < ways_of (tree self.old units.old) }
        ensures tree { tree self.new units.new ≡ subtree (tree self.old units.old) d }
        ensures kept { kept self.new units.new }
        ensures same { SameRun units.old units.new };

    /// Every plan is sound.
    ghost sound: { SoundPlans (plan_from begun) };

    /// While a run stands, what each unit holds is its exact share.
    ghost exact: { (m : Self) (u : Holdings) → kept m u → HoldShares u (tree m u) };

    /// What belongs together is a fact, of which there is one proof.
    ghost kept_once: { (m : Self) (u : Holdings) → IsProp (kept m u) };
}
