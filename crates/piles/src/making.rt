ghost use Rattle.std.specs.Prelude.{◌≡◌};
ghost use Rattle.design.specs.Idle.{IsIdle};
ghost use Rattle.layers.specs.Stratified.{allot_refusal, stratified_plan};
ghost use Rattle.layers.specs.TwoStage.{within_refusal, two_stage_plan};
ghost use Rattle.piles.specs.Making.{Makes};
ghost use Rattle.piles.specs.Piles.{strata_of_stages_plan, strata_of_stages_refusal};
ghost use Rattle.piles.specs.Piles.{stages_of_strata_plan, stages_of_strata_refusal};
ghost use Rattle.piles.specs.declared.making.Unmade.TheVariants.{OutOfMemory, Refused};

use design::design::Design;
use design::fault::Fault;
use pivotal::Pivotal;
use std::alloc::{AllocError, Global};
use stratified::Stratified;
use systematic::Systematic;
use two_stage::TwoStage;

/// Stratification over two-stage drawing over two plain designs.
pub type StrataOfStages = Stratified<TwoStage<Pivotal, Systematic>>;

/// Two-stage drawing over two stratifications, each over a plain design.
pub type StagesOfStrata = TwoStage<Stratified<Pivotal>, Stratified<Systematic>>;

/// Why a pile was not made: a setting was refused, or memory ran out.
#[derive(Clone, Copy, PartialEq, Eq, Debug)]
pub enum Unmade {
    Refused(Fault),
    OutOfMemory,
}

impl From<Fault> for Unmade {
    ghost from_gives = { λ fault e. e ≡ Refused fault };

    fn from(fault: Fault) -> Unmade {
        Unmade::Refused(fault)
    }
}

impl From<AllocError> for Unmade {
    ghost from_gives = { λ _ e. e ≡ OutOfMemory };

    fn from(_e: AllocError) -> Unmade {
        Unmade::OutOfMemory
    }
}

/// Stratification over this design, with these takes.
pub fn strata<D: Design + Drop>(
    heap: Global,
    below: D,
    takes: &[u32],
) -> Result<Stratified<D>, Unmade>
    ensures { Makes (allot_refusal takes.now) (IsIdle ⟦<Stratified<D> as Design>⟧ (stratified_plan (D.Design.plan below) takes.now)) result }
{
    let mut strata = Stratified::new(heap, below)?;
    strata.allot(takes)?;
    Ok(strata)
}

/// Two-stage drawing over these designs, with m units of each cluster that is drawn.
pub fn stages<A: Design + Drop, B: Design + Drop>(
    heap: Global,
    first: A,
    second: B,
    m: u32,
) -> Result<TwoStage<A, B>, Unmade>
    ensures { Makes (within_refusal m) (IsIdle ⟦<TwoStage<A, B> as Design>⟧ (two_stage_plan m (A.Design.plan first) (B.Design.plan second))) result }
{
    let mut stages = TwoStage::new(heap, first, second)?;
    stages.within(m)?;
    Ok(stages)
}

/// By strata with these takes: clusters by the pivotal method, then m units of each by the systematic one.
pub fn strata_of_stages(heap: Global, takes: &[u32], m: u32) -> Result<StrataOfStages, Unmade>
    ensures { Makes (strata_of_stages_refusal takes.now m) (IsIdle ⟦<StrataOfStages as Design>⟧ (strata_of_stages_plan takes.now m)) result }
{
    let clusters = Pivotal::new(heap)?;
    let units = Systematic::new(heap)?;
    let stages = stages(heap, clusters, units, m)?;
    strata(heap, stages, takes)
}

/// Clusters by the pivotal method in strata with the takes `first`, then m units of each by the systematic one in strata with the takes
/// `second`.
pub fn stages_of_strata(
    heap: Global,
    first: &[u32],
    second: &[u32],
    m: u32,
) -> Result<StagesOfStrata, Unmade>
    ensures { Makes (stages_of_strata_refusal m first.now second.now) (IsIdle ⟦<StagesOfStrata as Design>⟧ (stages_of_strata_plan m first.now second.now)) result }
{
    let clusters = strata(heap, Pivotal::new(heap)?, first)?;
    let units = strata(heap, Systematic::new(heap)?, second)?;
    stages(heap, clusters, units, m)
}
