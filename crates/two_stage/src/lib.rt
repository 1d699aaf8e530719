//! Two-stage drawing over any two designs, as code.
#![tactic(auto)]

ghost use Rattle.std.specs.Prelude.{◌≡◌, ◌≤◌, length, IfOk, OnErr};
ghost use Rattle.parts.specs.Running.{all_parts};
ghost use Rattle.series.specs.Of.{tables_of};
ghost use Rattle.two_stage.specs.Stands.{IsIntact};

use cluster_rows::{ClusterRows, MOST_CLUSTERS};
use design::check::check_list;
use design::design::Design;
use design::fault::{Fault, Reason};
use design::fraction::times;
use design::row::Row;
use first::{begin_first, check_products, settle};
use series::Series;
use series::kind::PartKind;
use std::alloc::{AllocError, Global};
use std::num::NonZeroU32;

mod cluster_rows;
mod first;

/// The largest number that may be taken of each cluster.
pub const MOST_WITHIN: u32 = 1024;

/// How far a run of both stages has come.
#[derive(Clone, Copy, PartialEq, Eq, Debug)]
pub enum Stage {
    /// No run stands.
    Waiting,
    /// The first design runs on the clusters.
    First,
    /// The second design runs on the taken clusters in turn.
    Second,
}

/// Two-stage drawing: the first design runs on the clusters of a list, and the second on each taken cluster in order.
#[derive(Drop)]
pub struct TwoStage<A: Design, B: Design> {
    first: A,
    second: Series<B>,
    cluster_rows: ClusterRows,
    within: Option<NonZeroU32>,
    stage: Stage,
    ghost together: { ∥ IsIntact A.Design B.Design stage first second ∥₁ },
}

impl<A: Design, B: Design> TwoStage<A, B> {
    ghost use Rattle.design.specs.Faults.{Answers};
    ghost use Rattle.design.specs.Idle.{IsIdle, Sets};
    ghost use Rattle.design.specs.Lists.{total};
    ghost use Rattle.layers.specs.TwoStage.{within_refusal, clusters_refusal, two_stage_plan};
    ghost use Rattle.two_stage.specs.Of.{plans_below, number_set, CutInto, SameLayer, first_does, Opens, SameSettings};

    /// Two-stage drawing over these designs, with no number set, and room for every list that is accepted.
    pub fn new(heap: Global, first: A, second: B) -> Result<Self, AllocError>
    where
        A: Drop,
        B: Drop,
        ensures idle { IfOk result (IsIdle ⟦<TwoStage<A, B> as Design>⟧ (two_stage_plan 0 (A.plan first) (B.plan second))) }
        ensures over { IfOk result (λ s. plans_below s ≡ (A.plan first, B.plan second)) }
    {
        let cluster_rows = ClusterRows::new(heap)?;
        let second = Series::new(heap, second)?;
        Ok(TwoStage {
            first,
            second,
            cluster_rows,
            within: None,
            stage: Stage::Waiting,
        })
    }

    /// Sets the sample size in each cluster that is drawn, which ends the run. Refused with 9 (0, or over 1,024), it changes nothing.
    pub fn within(&mut self, m: u32) -> Result<(), Fault>
        ensures answers { Sets ⟦<TwoStage<A, B> as Design>⟧ (within_refusal m) (two_stage_plan m (plans_below self.old).0 (plans_below self.old).1) self.new result }
        ensures over { plans_below self.new ≡ plans_below self.old }
        ensures refused { OnErr result (self.new ≡ self.old) }
    {
        if m == 0 || m > MOST_WITHIN {
            return Err(Fault::of(Reason::WithinOutOfRange));
        }
        self.within = NonZeroU32::new(m);
        self.stage = Stage::Waiting;
        Ok(())
    }

    // Cuts a list into clusters, and answers how many of them are to be drawn.
    fn cut(&mut self, list: &[Row], n: u32) -> Result<u32, Fault>
        requires { self.old.stage ≡ Stage.Waiting }
        ensures answers { Answers (clusters_refusal (number_set self.old) list.now n) (λ q. CutInto (number_set self.old) q list.now n self.new) result }
        ensures same { SameLayer self.old self.new }
    {
        let Some(m) = self.within else {
            return Err(Fault::of(Reason::NothingSet));
        };
        let m = m.get();
        check_list(list, n)?;
        self.second.table.cut(PartKind::Cluster, list)?;
        if n % m != 0 {
            return Err(Fault::of(Reason::SampleNotMultiple));
        }
        if self.second.table.count() > MOST_CLUSTERS {
            let row = self.second.table.first_row(MOST_CLUSTERS);
            return Err(Fault::at(Reason::TooManyClusters, row));
        }
        self.second.table.ask_each(m);
        Ok(n / m)
    }

    // Begins the first design on the clusters, tries the second on each of them, and looks for a denominator that is too large.
    fn open(&mut self, drawn: u32) -> Result<(), Fault>
        requires waiting { self.old.stage ≡ Stage.Waiting }
        requires few { length (all_parts (tables_of self.old.second)) ≤ 128 }
        requires small { total (tables_of self.old.second).rows ≤ 10240000 }
        ensures answers { Opens A.Design B.Design (first_does A.Design self.old drawn) self.old self.new result }
        ensures same { SameSettings A.Design B.Design self.old self.new }
    {
        self.cluster_rows.fill(&self.second.table);
        begin_first(
            &mut self.first,
            self.cluster_rows.as_slice(),
            &self.second.table,
            drawn,
        )?;
        self.second.try_parts()?;
        check_products(&self.first, &self.second.table)
    }
}

impl<A: Design, B: Design> Design for TwoStage<A, B> {
    ghost use Rattle.layers.specs.TwoStage.{two_stage_plan};
    ghost use Rattle.layers.proofs.TwoStagePlans.{two_stage_sound};
    ghost use Rattle.two_stage.specs.Exact.{exact_kept};
    ghost use Rattle.design.specs.Design.{Began, Stepped};
    ghost use Rattle.two_stage.specs.Of.{plans_below, stands, number_set};

    ghost plan = { λ s. two_stage_plan (number_set s) (A.plan s.first) (B.plan s.second.below) };

    ghost tree = { λ s. stands A.Design B.Design s };

    ghost sound = { λ s.
        let below = s.second.below in
        two_stage_sound (A.plan s.first) (B.plan below) (A.sound s.first) (B.sound below) (number_set s) };

    ghost exact = { λ s.
        let below = s.second.below in
        exact_kept s.stage (B.plan below) (B.sound below) (tables_of s.second) (A.tree s.first) (B.tree below) (A.exact s.first) (B.exact below) s.together };

    // Beside the promises of every design: what the designs below do stays, so a later `within` has the plan of its number over them.
    fn begin(&mut self, list: &[Row], n: u32) -> Result<(), Fault>
        ensures begun { Began (⟦<TwoStage<A, B> as Design>⟧.plan self.old list.now n) result (⟦<TwoStage<A, B> as Design>⟧.tree self.new) }
        ensures settings { ⟦<TwoStage<A, B> as Design>⟧.plan self.new ≡ ⟦<TwoStage<A, B> as Design>⟧.plan self.old }
        ensures over { plans_below self.new ≡ plans_below self.old }
    {
        self.stage = Stage::Waiting;
        let drawn = self.cut(list, n)?;
        self.open(drawn)?;
        self.stage = settle(&self.first, &mut self.second)?;
        Ok(())
    }

    fn ways(&self) -> u32 {
        match self.stage {
            Stage::Waiting => 0,
            Stage::First => self.first.ways(),
            Stage::Second => self.second.ways(),
        }
    }

    fn step(&mut self, d: u32) -> Result<(), Fault>
        ensures stepped { Stepped (⟦<TwoStage<A, B> as Design>⟧.tree self.old) d result (⟦<TwoStage<A, B> as Design>⟧.tree self.new) }
        ensures settings { ⟦<TwoStage<A, B> as Design>⟧.plan self.new ≡ ⟦<TwoStage<A, B> as Design>⟧.plan self.old }
        ensures over { plans_below self.new ≡ plans_below self.old }
    {
        match self.stage {
            Stage::Waiting => Err(Fault::of(Reason::NoWays)),
            Stage::First => {
                self.first.step(d)?;
                self.stage = settle(&self.first, &mut self.second)?;
                Ok(())
            }
            Stage::Second => self.second.step(d),
        }
    }

    fn share(&self, k: u32) -> Result<(u64, u64), Fault> {
        if self.stage == Stage::Waiting || k as usize >= self.second.table.units() {
            return Err(Fault::of(Reason::NoSuchUnit));
        }
        let cluster = self.second.table.part_of(k);
        let first = self.first.share(cluster as u32)?;
        if self.stage == Stage::First {
            let within = self.second.table.prescribed(k as usize);
            return Ok(times(first, within));
        }
        // The first stage has come to its outcome: a taken cluster has the whole as its share, and a unit of any other has 0 in the series.
        let (_, denominator) = first;
        let taken = (denominator, denominator);
        let within = self.second.share_in(k, cluster)?;
        Ok(times(taken, within))
    }
}
