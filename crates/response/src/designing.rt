ghost use Rattle.std.specs.Prelude.{◌≡◌};
ghost use Rattle.frame_file.specs.Written.{Between, Fits, TakesFit};
ghost use Rattle.layers.specs.Stratified.{stratified_plan};
ghost use Rattle.layers.specs.TwoStage.{two_stage_plan};
ghost use Rattle.response.specs.Failures.{Gets};
ghost use Rattle.response.specs.Responses.{plans_of};
ghost use Rattle.frame_file.specs.Limits.{largest_sample};

use crate::failure::Failure;
use design::design::Design;
use frame_file::frame::Frame;
use pivotal::Pivotal;
use std::alloc::Global;
use stratified::Stratified;
use systematic::Systematic;
use two_stage::TwoStage;

/// The design of a frame file's sample: by strata, clusters by the pivotal method, and units of each by the systematic one.
pub(crate) type FrameDesign = Stratified<TwoStage<Pivotal, Systematic>>;

// Two-stage drawing with m units of each cluster.
fn stages<A: Design + Drop, B: Design + Drop>(
    heap: Global,
    first: A,
    second: B,
    m: u32,
) -> Result<TwoStage<A, B>, Failure>
    requires { Between 1 largest_sample m }
    ensures { Gets (λ s. ⟦<TwoStage<A, B> as Design>⟧.plan s ≡ two_stage_plan m (A.Design.plan first) (B.Design.plan second)) result }
{
    let mut stages = TwoStage::new(heap, first, second)?;
    stages.within(m)?;
    Ok(stages)
}

// Stratification with these takes.
fn strata<D: Design + Drop>(heap: Global, below: D, takes: &[u32]) -> Result<Stratified<D>, Failure>
    requires { TakesFit takes.now }
    ensures { Gets (λ s. ⟦<Stratified<D> as Design>⟧.plan s ≡ stratified_plan (D.Design.plan below) takes.now) result }
{
    let mut strata = Stratified::new(heap, below)?;
    strata.allot(takes)?;
    Ok(strata)
}

/// The design that a frame asks for.
pub(crate) fn design_for(heap: Global, frame: &Frame) -> Result<FrameDesign, Failure>
    requires { Fits frame.now }
    ensures { Gets (λ design. ⟦<FrameDesign as Design>⟧.plan design ≡ plans_of frame.now) result }
{
    let clusters = Pivotal::new(heap)?;
    let units = Systematic::new(heap)?;
    let stages = stages(heap, clusters, units, frame.header.m)?;
    strata(heap, stages, frame.takes.as_slice())
}
