ghost use Rattle.std.specs.Prelude.{◌≡◌, IfOk};
ghost use Rattle.plain_survey.specs.States.{State, ways_now};
ghost use Rattle.plain_survey.specs.Calls.{stop_after};
ghost use Rattle.plain_survey.specs.Reports.{has_outcome};
ghost use Rattle.survey.specs.Runs.{SomeRun};

use design::design::Design;
use std::alloc::{AllocError, Global};
use throws::source::Source;
use weights::Weights;

/// A survey: one design and one source of any make, and in a run the scale and each unit's design weight.
#[derive(Drop)]
pub struct Survey<D: Design, S: Source> {
    pub(crate) design: D,
    pub(crate) source: S,
    pub(crate) weights: Weights,
    // Whether a run stands.
    pub(crate) running: bool,
    // These fields mean some run of the plain survey, or that none stands.
    ghost meant: { ∥ SomeRun (D.plan design) (D.tree design) weights running ∥₁ },
}

impl<D: Design, S: Source> Survey<D, S> {
    ghost use Rattle.survey.specs.Means.{ComesTo, IsNew, Means, plans, words};

    /// A survey with no run, whatever its design did before.
    pub fn new(heap: Global, design: D, source: S) -> Result<Self, AllocError>
    where
        D: Drop,
        S: Drop,
        ensures { IfOk result (IsNew D.Design S.Source design source) }
    {
        let weights = Weights::new(heap)?;
        Ok(Survey {
            design,
            source,
            weights,
            running: false,
        })
    }

    /// Ends the run, and leaves the source.
    pub fn stop(&mut self)
        ensures after { ComesTo D.Design S.Source self.old self.new (stop_after (words S.Source self.old)) }
        ensures settings { plans D.Design self.new ≡ plans D.Design self.old }
    {
        self.running = false;
    }

    // The ways of the next throw; without a run they count as 0.
    pub(crate) fn ways(&self) -> u32
        ensures { (st : State) → Means D.Design S.Source self.now st → result ≡ ways_now st.run }
    {
        if self.running { self.design.ways() } else { 0 }
    }

    // Whether a run stands that has come to its outcome.
    pub(crate) fn has_outcome(&self) -> bool
        ensures { (st : State) → Means D.Design S.Source self.now st → result ≡ has_outcome st.run }
    {
        self.running && self.ways() == 0
    }
}
