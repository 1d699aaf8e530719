ghost use Rattle.std.specs.Prelude.{◌≡◌, ◌*◌, ◌≤◌, [], ◌∷◌, pos, ◌*ℤ◌, unsigned_abs};
ghost use Rattle.std.proofs.Common.{rules, refl, lit≤};
ghost use Rattle.std.proofs.lemmas.Grind.{common_steps};
ghost use Rattle.totals.specs.Kinds.{money_lawful, money_row};
ghost use Rattle.totals.specs.Totals.{IsNew};

use crate::additions::Additions;
use crate::total::Total;
use design::fault::Fault;

/// A total of amounts of money: one entry, the amount.
#[derive(Drop)]
pub struct Money {
    amount: i64,
    additions: Additions,
    ghost bounded: { unsigned_abs amount ≤ additions.count * 1000000000000000 },
}

impl Money {
    /// The amount 0, with no additions.
    pub fn new() -> Money
        ensures { IsNew ⟦<Money as Total>⟧ result }
    {
        Money {
            amount: 0,
            additions: Additions::new(),
        }
    }
}

impl Default for Money {
    ghost is_default = { IsNew ⟦<Money as Total>⟧ };

    fn default() -> Money {
        Money::new()
    }
}

// The product of a weight and a lawful reading.
fn weighted(w: u32, reading: i32) -> i64
    requires weight { w ≤ 1000000000 }
    requires reach { unsigned_abs reading ≤ 1000000 }
    ensures product { result ≡ pos w *ℤ reading }
    ensures bound { unsigned_abs result ≤ 1000000000000000 }
{
    i64::from(w) * i64::from(reading)
}

impl Total for Money {
    type Reading = i32;

    const REACH: u32 = 1_000_000;

    ghost REACH = { 1000000 };

    const WIDTH: usize = 1;

    ghost WIDTH = { 1 };

    ghost is_lawful = { money_lawful };

    ghost row = { money_row };

    ghost entries = { λ total. total.amount ∷ [] };

    ghost additions = { λ total. total.additions.count };

    fn lawful(reading: &i32) -> bool {
        reading.unsigned_abs() <= Self::REACH
    }

    fn clear(&mut self) {
        self.amount = 0;
        self.additions = Additions::new();
    }

    fn add(&mut self, w: u32, reading: &i32) -> Result<(), Fault> {
        self.additions.admit(w, Self::lawful(reading))?;
        self.amount += weighted(w, *reading);
        Ok(())
    }

    fn entry(&self, i: usize) -> Option<i64> {
        (i == 0).then_some(self.amount)
    }

    ghost small = { lit≤ tt };

    ghost some = { lit≤ tt };

    ghost rows = { Prim.search (rules, common_steps) };

    ghost wide = { λ _. refl };
}
