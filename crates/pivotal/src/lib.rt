//! Ordered pivotal drawing, as code.
#![tactic(auto)]

mod duel;

ghost use Rattle.std.specs.Prelude.{◌≡◌, ◌≤◌, false, length};
ghost use Rattle.methods.specs.Pivotal.{nobody, pivotal, pivotal_plan};
ghost use Rattle.methods.proofs.PivotalCalls.{pivotal_sound, intact_once};
ghost use Rattle.methods.proofs.Pivotals.{fair, lawful};
ghost use Rattle.pivotal.specs.Duels.{tree_of, HeldIn, IntactIn, DueDuel, NextShort};
ghost use Rattle.plain.specs.Of.{whole, held};

use design::design::Design;
use duel::Duel;
use plain::Plain;
use plain::holdings::Holdings;
use plain::method::Method;

/// Ordered pivotal drawing: each called unit duels with the one that is pending.
pub type Pivotal = Plain<Duels>;

/// The method of ordered pivotal drawing.
#[derive(Clone, Copy, Default)]
pub struct Duels {
    // How many units have been called. While any are left, the next one has to duel.
    called: usize,
    pending: Option<usize>,
}

// The first of the units from this one on that does not hold the total, and the number of units where each does.
fn next_short(units: &Holdings, from: usize) -> usize
    requires { from ≤ length (held units.now) }
    ensures { NextShort units.now from result }
{
    let end = units.units();
    let total = units.total();
    (from..end).find(|k| units.get(*k) != total).unwrap_or(end)
}

impl Duels {
    // Calls units until one has to duel, or all have been called.
    fn call(self, units: &Holdings) -> Self
        requires { HeldIn units.now self }
        ensures kept { IntactIn units.now result }
        ensures same { tree_of units.now result ≡ tree_of units.now self }
    {
        let called = next_short(units, self.called);
        if self.pending.is_some() || called == units.units() {
            return Duels { called, ..self };
        }
        Duels {
            called: next_short(units, called + 1),
            pending: Some(called),
        }
    }

    // The duel that is due, if one is.
    fn duel(&self, units: &Holdings) -> Option<Duel>
        requires { IntactIn units.now self.now }
        ensures { DueDuel units.now self.now result }
    {
        if self.called >= units.units() {
            return None;
        }
        let pending = self.pending?;
        Some(Duel {
            pending,
            a: units.get(pending),
            b: units.get(self.called),
            total: units.total(),
        })
    }
}

impl Method for Duels {
    ghost begun = { λ all goals. pivotal all goals 0 nobody (λ _. false) };

    ghost tree = { λ m u. tree_of u m };

    ghost kept = { λ m u. IntactIn u m };

    ghost sound = { pivotal_sound };

    ghost exact = { λ m u h. record {
      some = h.0.0;
      within = h.0.1;
      lawful = lawful (whole u) (held u) m.called m.pending h.0;
      shares = λ k l. fair (whole u) (held u) m.called m.pending k h.0 l;
    } };

    ghost kept_once = { λ m u. intact_once (whole u) (held u) m.called m.pending };

    fn start(units: &Holdings) -> Self {
        Duels::default().call(units)
    }

    fn ways(&self, units: &Holdings) -> u32 {
        self.duel(units).map_or(0, |duel| duel.ways())
    }

    fn settle(&mut self, units: &mut Holdings, d: u32) {
        // A throw below the ways has its duel.
        let duel = self.duel(units).unwrap();
        let left = duel.left(d);
        let called = self.called;
        units.set(duel.pending, left.pending);
        units.set(called, left.called);
        let next = Duels {
            called: called + 1,
            pending: duel.keeper(called, left),
        };
        *self = next.call(units);
    }
}

/// The plan of each list is that of ordered pivotal drawing, in any state of the design.
pub fn plan_is_pivotal(design: &Pivotal)
    ensures { ⟦<Pivotal as Design>⟧.plan design.now ≡ pivotal_plan }
{}
