//! Systematic drawing, as code.
#![tactic(auto)]

ghost use Rattle.std.specs.Prelude.{◌≡◌, ◌<◌, ◌≤◌, length};
ghost use Rattle.methods.specs.Holdings.{Within};
ghost use Rattle.methods.specs.Systematic.{systematic, systematic_plan};
ghost use Rattle.methods.specs.SystematicRuns.{systematic_tree, Held, Struck};
ghost use Rattle.methods.proofs.Systematics.{systematic_sound, fair, lawful, held_once};
ghost use Rattle.plain.specs.Of.{runs, whole, held};

use design::design::Design;
use plain::Plain;
use plain::holdings::Holdings;
use plain::method::Method;

/// Systematic drawing: one throw settles every unit.
pub type Systematic = Plain<OneThrow>;

/// The method of systematic drawing.
#[derive(Clone, Copy, Default)]
pub struct OneThrow {
    thrown: bool,
}

// Leaves the total to each unit that has one of the points r, r + total, r + 2 total and so on among its numbers, and nothing to the others.
fn strike(units: &mut Holdings, r: u32)
    requires below { r < whole units.old }
    requires small { whole units.old ≤ 10240000 }
    requires few { length (held units.old) ≤ 1024 }
    requires within { Within (whole units.old) (held units.old) }
    ensures struck { Struck (whole units.old) (held units.old) r (held units.new) }
    ensures whole { whole units.new ≡ whole units.old }
    ensures runs { runs units.new ≡ runs units.old }
{
    let total = units.total();
    let mut sum: u64 = 0;
    let mut point = u64::from(r);
    for i in 0..units.units() {
        sum += u64::from(units.get(i));
        if point < sum {
            units.set(i, total);
            point += u64::from(total);
        } else {
            units.set(i, 0);
        }
    }
}

impl Method for OneThrow {
    ghost begun = { systematic };

    ghost tree = { λ m u. systematic_tree (whole u) (held u) m.thrown };

    ghost kept = { λ m u. Held (whole u) (held u) m.thrown };

    ghost sound = { systematic_sound };

    ghost exact = { λ m u h. record {
      some = h.0;
      within = h.1;
      lawful = lawful (whole u) (held u) m.thrown h;
      shares = λ k l. fair (whole u) (held u) m.thrown k h l;
    } };

    ghost kept_once = { λ m u. held_once (whole u) (held u) m.thrown };

    fn start(_units: &Holdings) -> Self {
        OneThrow { thrown: false }
    }

    fn ways(&self, units: &Holdings) -> u32 {
        if self.thrown { 0 } else { units.total() }
    }

    fn settle(&mut self, units: &mut Holdings, d: u32) {
        strike(units, d);
        self.thrown = true;
    }
}

/// The plan of each list is that of systematic drawing, in any state of the design.
pub fn plan_is_systematic(design: &Systematic)
    ensures { ⟦<Systematic as Design>⟧.plan design.now ≡ systematic_plan }
{}
