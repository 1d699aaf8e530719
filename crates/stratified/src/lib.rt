//! Stratification over any design, as code.
#![tactic(auto)]

ghost use Rattle.std.specs.Prelude.{◌≡◌, true, false, IfOk, OnErr};
ghost use Rattle.series.specs.Of.{IsIntact, standing, tables_of};

use design::design::Design;
use design::fault::{Fault, Reason};
use design::row::Row;
use series::Series;
use series::kind::PartKind;
use std::alloc::{AllocError, Global};
use takes::Takes;

mod takes;

/// Stratification: the design below runs on each stratum of a list in order, with that stratum's take.
#[derive(Drop)]
pub struct Stratified<D: Design> {
    strata: Series<D>,
    takes: Takes,
    // Whether the series holds a run.
    running: bool,
    ghost together: { ∥ (running ≡ true → IsIntact D.Design strata) ∥₁ },
}

impl<D: Design> Stratified<D> {
    ghost use Rattle.std.specs.Prelude.{[]};
    ghost use Rattle.design.specs.Faults.{Answers};
    ghost use Rattle.design.specs.Idle.{IsIdle, Sets};
    ghost use Rattle.layers.specs.Stratified.{allot_refusal, strata_refusal};
    ghost use Rattle.layers.specs.Stratified.{stratified_plan};
    ghost use Rattle.stratified.specs.Of.{takes_of, plans_below, cut_strata, SameLayer};

    /// Stratification over this design, with no takes set, and room for every list and every table of takes.
    pub fn new(heap: Global, below: D) -> Result<Self, AllocError>
    where
        D: Drop,
        ensures idle { IfOk result (IsIdle ⟦<Stratified<D> as Design>⟧ (stratified_plan (D.plan below) [])) }
        ensures over { IfOk result (λ s. plans_below s ≡ D.plan below) }
    {
        let takes = Takes::new(heap)?;
        let strata = Series::new(heap, below)?;
        Ok(Stratified {
            strata,
            takes,
            running: false,
        })
    }

    /// Sets the table of takes, which ends the run. Refused with 7 (no takes, or over 64) or 8 (a take of 0), it changes nothing.
    pub fn allot(&mut self, takes: &[u32]) -> Result<(), Fault>
        ensures answers { Sets ⟦<Stratified<D> as Design>⟧ (allot_refusal takes.now) (stratified_plan (plans_below self.old) takes.now) self.new result }
        ensures over { plans_below self.new ≡ plans_below self.old }
        ensures refused { OnErr result (self.new ≡ self.old) }
    {
        self.takes.set(takes)?;
        self.running = false;
        Ok(())
    }

    // Cuts a list into strata, each with its take.
    fn cut(&mut self, list: &[Row], n: u32) -> Result<(), Fault>
        requires { self.old.running ≡ false }
        ensures answers { Answers (strata_refusal (takes_of self.old) list.now n) (λ _. tables_of self.new.strata ≡ cut_strata (takes_of self.old) list.now) result }
        ensures same { SameLayer self.old self.new }
    {
        if self.takes.is_empty() {
            return Err(Fault::of(Reason::NothingSet));
        }
        self.strata.table.cut(PartKind::Stratum, list)?;
        if !self.strata.table.ask(self.takes.as_slice()) {
            return Err(Fault::of(Reason::StrataNotTakes));
        }
        if self.takes.total() != u64::from(n) {
            return Err(Fault::of(Reason::TakesNotSample));
        }
        Ok(())
    }
}

impl<D: Design> Design for Stratified<D> {
    ghost use Rattle.layers.specs.Standings.{stands_if};
    ghost use Rattle.layers.specs.Stratified.{stratified_plan};
    ghost use Rattle.layers.proofs.Standings.{exact_if};
    ghost use Rattle.layers.proofs.StratifiedPlans.{stratified_sound};
    ghost use Rattle.parts.proofs.Stepping.{exact_now};
    ghost use Rattle.design.specs.Design.{Began, Stepped};
    ghost use Rattle.stratified.specs.Of.{plans_below, takes_of};

    ghost plan = { λ s. stratified_plan (D.plan s.strata.below) (takes_of s) };

    ghost tree = { λ s. stands_if s.running (standing D.Design s.strata) };

    ghost sound = { λ s. stratified_sound (D.plan s.strata.below) (D.sound s.strata.below) (takes_of s) };

    ghost exact = { λ s.
        let below = s.strata.below in
        exact_if s.running (IsIntact D.Design.own s.strata) (standing D.Design.own s.strata)
        (λ i. exact_now (D.plan below) (D.sound below) (tables_of s.strata) (D.tree below) i.underway (D.exact below)) s.together };

    // Beside the promises of every design: what the design below does stays, so a later allot has the plan of its takes over it.
    fn begin(&mut self, list: &[Row], n: u32) -> Result<(), Fault>
        ensures begun { Began (⟦<Stratified<D> as Design>⟧.plan self.old list.now n) result (⟦<Stratified<D> as Design>⟧.tree self.new) }
        ensures settings { ⟦<Stratified<D> as Design>⟧.plan self.new ≡ ⟦<Stratified<D> as Design>⟧.plan self.old }
        ensures over { plans_below self.new ≡ plans_below self.old }
    {
        self.running = false;
        self.cut(list, n)?;
        self.strata.try_parts()?;
        self.strata.start()?;
        self.running = true;
        Ok(())
    }

    fn ways(&self) -> u32 {
        if self.running { self.strata.ways() } else { 0 }
    }

    fn step(&mut self, d: u32) -> Result<(), Fault>
        ensures stepped { Stepped (⟦<Stratified<D> as Design>⟧.tree self.old) d result (⟦<Stratified<D> as Design>⟧.tree self.new) }
        ensures settings { ⟦<Stratified<D> as Design>⟧.plan self.new ≡ ⟦<Stratified<D> as Design>⟧.plan self.old }
        ensures over { plans_below self.new ≡ plans_below self.old }
    {
        if !self.running {
            return Err(Fault::of(Reason::NoWays));
        }
        self.strata.step(d)
    }

    // Inlined, as the share of a series is.
    #[inline(always)]
    fn share(&self, k: u32) -> Result<(u64, u64), Fault> {
        if !self.running {
            return Err(Fault::of(Reason::NoSuchUnit));
        }
        self.strata.share(k)
    }
}
