ghost use Rattle.std.specs.Prelude.{IfOk};
ghost use Rattle.plain_survey.specs.Calls.{taken_answer, share_answer};
ghost use Rattle.plain_survey.specs.Reports.{report_answer, report_tally};
ghost use Rattle.survey.specs.Means.{AllExact, HasEstimates, Leaves, Tells, kind_of, plans};

use crate::adding::{add_taken, first_unlawful};
use crate::survey::Survey;
use design::check::refuse_at;
use design::design::Design;
use design::fault::{Fault, Reason};
use throws::source::Source;
use totals::total::Total;

impl<D: Design, S: Source> Survey<D, S> {
    /// Whether the unit k is in every outcome of the present tree; refused with 19 without a run or such a unit.
    pub fn taken(&self, k: u32) -> Result<bool, Fault>
        ensures answer { Tells D.Design S.Source self.now result (λ st. taken_answer st.run k) }
        ensures exact { AllExact D.Design S.Source self.now }
    {
        if !self.running {
            return Err(Fault::of(Reason::NoSuchUnit));
        }
        self.design.taken(k)
    }

    /// The inclusion share of the unit k in the present tree: its numerator, and the prescribed denominator; refused as `taken`.
    pub fn share(&self, k: u32) -> Result<(u64, u64), Fault>
        ensures answer { Tells D.Design S.Source self.now result (λ st. share_answer (plans D.Design self.now) st.run k) }
        ensures exact { AllExact D.Design S.Source self.now }
    {
        if !self.running {
            return Err(Fault::of(Reason::NoSuchUnit));
        }
        self.design.share(k)
    }

    /// Clears the caller's total, adds weight and reading of each taken unit, and answers the scale and the number of units taken.
    /// Each entry over the scale is then the estimate of Horvitz and Thompson. Refusals, which leave the total: 24 without a run that has
    /// come to its outcome; 25 where readings are not as many as units; 26 at the first unlawful reading.
    pub fn report<T: Total>(
        &self,
        readings: &[T::Reading],
        total: &mut T,
    ) -> Result<(u32, u32), Fault>
        ensures answer { Tells D.Design S.Source self.now result (λ st. report_answer (kind_of T.Total) (plans D.Design self.now) st.run readings.now) }
        ensures total { Leaves D.Design S.Source T.Total self.now total.old total.new (λ st. report_tally (kind_of T.Total) (plans D.Design self.now) st.run readings.now) }
        ensures estimates { IfOk result (λ (scale, _). HasEstimates D.Design S.Source T.Total self.now readings.now scale total.new) }
        ensures exact { AllExact D.Design S.Source self.now }
    {
        if !self.has_outcome() {
            return Err(Fault::of(Reason::NoFinishedRun));
        }
        let weights = self.weights.as_slice();
        if readings.len() != weights.len() {
            return Err(Fault::of(Reason::ReadingsNotAsUnits));
        }
        refuse_at(first_unlawful::<T>(readings), Reason::UnlawfulReading)?;
        let scale = self.weights.scale();
        let taken = add_taken(&self.design, weights, readings, total)?;
        Ok((scale, taken))
    }
}
