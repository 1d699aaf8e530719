//! The plain designs: the units of a run with what each of them holds of the total, and one design over any method of drawing.
#![tactic(auto)]

pub mod holdings;
pub mod method;

ghost use Rattle.std.specs.Prelude.{◌≡◌, true, false, IfOk};
ghost use Rattle.methods.proofs.Holdings.{holding_now, sound_held};
ghost use Rattle.plain.specs.Methods.{HoldShares, plan_from};
ghost use Rattle.plain.specs.Of.{runs, whole, held, stands_at};

use design::design::Design;
use design::fault::{Fault, Reason};
use design::row::Row;
use holdings::Holdings;
use method::Method;
use std::alloc::{AllocError, Global};

/// A plain design: the units of a list are drawn by this method, each with its goal over the total as its share.
#[derive(Drop)]
pub struct Plain<M: Method> {
    units: Holdings,
    method: M,
    ghost holding: { ∥ (runs units ≡ true → M.kept method units) ∥₁ },
}

impl<M: Method> Plain<M> {
    ghost use Rattle.design.specs.Idle.{IsIdle};

    /// A design with no run, and room for every list that begin accepts, so that no later call needs memory.
    pub fn new(heap: Global) -> Result<Self, AllocError>
        ensures { IfOk result (IsIdle ⟦<Plain<M> as Design>⟧ (plan_from M.begun)) }
    {
        let units = Holdings::new(heap)?;
        Ok(Plain {
            units,
            method: M::default(),
        })
    }
}

impl<M: Method> Design for Plain<M> {
    ghost plan = { λ _. plan_from M.begun };

    ghost tree = { λ s. stands_at s.units (M.tree s.method s.units) };

    ghost sound = { λ s. M.sound };

    ghost exact = { λ s.
        let now : runs s.units ≡ true → HoldShares s.units (M.tree s.method s.units) = λ e.
        M.exact s.method s.units (holding_now (runs s.units) (M.kept_once s.method s.units) s.holding e) in
        sound_held (runs s.units) (whole s.units) (held s.units) (M.tree s.method s.units)
        (λ e. ((now e).some, (now e).within)) (λ e. (now e).lawful) (λ e. (now e).shares) };

    fn begin(&mut self, list: &[Row], n: u32) -> Result<(), Fault> {
        self.units.begin(list, n)?;
        self.method = M::start(&self.units);
        Ok(())
    }

    fn ways(&self) -> u32 {
        if self.units.is_running() {
            self.method.ways(&self.units)
        } else {
            0
        }
    }

    // Each throw calls it, and a call would cost a part of the throw that is felt.
    #[inline]
    fn step(&mut self, d: u32) -> Result<(), Fault> {
        let ways = self.ways();
        if ways == 0 {
            return Err(Fault::of(Reason::NoWays));
        }
        if d >= ways {
            return Err(Fault::of(Reason::NoSuchThrow));
        }
        self.method.settle(&mut self.units, d);
        Ok(())
    }

    fn share(&self, k: u32) -> Result<(u64, u64), Fault> {
        self.units.share(k)
    }
}
