//! Poisson drawing, as code.
#![tactic(auto)]

ghost use Rattle.std.specs.Prelude.{◌≡◌, false, if◌then◌else◌, nat_lt};
ghost use Rattle.methods.specs.Poisson.{poisson, poisson_plan};
ghost use Rattle.methods.specs.PoissonRuns.{poisson_tree, Held};
ghost use Rattle.methods.proofs.Poissons.{poisson_sound, fair, lawful, held_once};
ghost use Rattle.plain.specs.Of.{whole, held};

use design::design::Design;
use plain::Plain;
use plain::holdings::Holdings;
use plain::method::Method;

/// Poisson drawing: a throw for each unit, which alone settles it.
pub type Poisson = Plain<Trials>;

/// The method of Poisson drawing.
#[derive(Clone, Copy, Default)]
pub struct Trials {
    // How many units have had their throw.
    called: usize,
}

// What the throw leaves to a unit: all, if it is below the goal, and else nothing.
fn settled(d: u32, goal: u32, all: u32) -> u32
    ensures { result ≡ (if nat_lt d goal then all else 0) }
{
    if d < goal { all } else { 0 }
}

impl Method for Trials {
    ghost begun = { λ all goals. poisson all goals 0 (λ _. false) };

    ghost tree = { λ m u. poisson_tree (whole u) (held u) m.called };

    ghost kept = { λ m u. Held (whole u) (held u) m.called };

    ghost sound = { poisson_sound };

    ghost exact = { λ m u h. record {
      some = h.0;
      within = h.1;
      lawful = lawful (whole u) (held u) m.called h;
      shares = λ k l. fair (whole u) (held u) m.called k h l;
    } };

    ghost kept_once = { λ m u. held_once (whole u) (held u) m.called };

    fn start(_units: &Holdings) -> Self {
        Trials { called: 0 }
    }

    fn ways(&self, units: &Holdings) -> u32 {
        if self.called < units.units() {
            units.total()
        } else {
            0
        }
    }

    fn settle(&mut self, units: &mut Holdings, d: u32) {
        let goal = units.get(self.called);
        units.set(self.called, settled(d, goal, units.total()));
        self.called += 1;
    }
}

/// The plan of each list is that of Poisson drawing, in any state of the design.
pub fn plan_is_poisson(design: &Poisson)
    ensures { ⟦<Poisson as Design>⟧.plan design.now ≡ poisson_plan }
{}
