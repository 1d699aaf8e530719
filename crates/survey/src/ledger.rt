ghost use Rattle.std.specs.Prelude.{◌≡◌, ℕ, List, length, [], ◌∷◌, ◌++◌, ◌+◌};
ghost use Rattle.plain_survey.specs.Reports.{Tally};
ghost use Rattle.plain_survey.specs.Requests.{IsFor, Request, either_requests, request, request_answer};
ghost use Rattle.survey.specs.Means.{LeavesTallies, Tells, kind_of, plans, tally_of};
ghost use Rattle.plain_survey.proofs.Requests.{one_for, either_for, many_in};
ghost use Rattle.std.proofs.Common.{refl};

use crate::survey::Survey;
use design::design::Design;
use design::fault::Fault;
use plain_survey::either::Either;
use throws::source::Source;
use totals::total::Total;

/// Totals, each of any kind, and what asks for a report into one of them. Its meaning is the tallies of these totals, in their order.
pub trait Ledger<Q> {
    /// How many totals there are.
    ghost count: { ℕ };

    /// The report that a Q asks for: into which total, and the readings.
    ghost requested: { Q → Request };

    /// What the totals stand at.
    ghost tallies: { Self → List Tally };

    /// Makes the report that is asked for, and answers the scale and the number of units taken; refused, all totals stay.
    fn report_by<D: Design, S: Source>(
        &mut self,
        survey: &Survey<D, S>,
        request: &Q,
    ) -> Result<(u32, u32), Fault>
        ensures answer { Tells D.Design S.Source survey.now result (λ st. request_answer (requested request.now) (plans D.Design survey.now) st.run) }
        ensures totals { LeavesTallies D.Design S.Source survey.now (requested request.now) (tallies self.old) (tallies self.new) };

    /// There is a tally for each of these totals.
    ghost counted: { (ledger : Self) → length (tallies ledger) ≡ count };

    /// A report is asked for into one of them, and the rows of its lawful readings are of that total's width.
    ghost fits: { (q : Q) → IsFor count (requested q) };
}

/// One total of any kind, and readings of that kind.
impl<'a, T: Total> Ledger<&'a [T::Reading]> for T {
    ghost count = { 1 };

    ghost requested = { λ q. request 0 (kind_of T.Total) q.now };

    ghost tallies = { λ total. tally_of T.Total total ∷ [] };

    fn report_by<D: Design, S: Source>(
        &mut self,
        survey: &Survey<D, S>,
        request: &&'a [T::Reading],
    ) -> Result<(u32, u32), Fault> {
        survey.report(request, self)
    }

    ghost counted = { λ total. refl };

    ghost fits = { λ q. one_for (record { is_lawful = T.is_lawful; row = T.Total.row; width = T.WIDTH }) (λ x l. (T.rows x l).0) q.now };
}

/// Two ledgers as one.
#[derive(Drop)]
pub struct Both<A, B> {
    pub first: A,
    pub second: B,
}

impl<P, Q, A: Ledger<P>, B: Ledger<Q>> Ledger<Either<P, Q>> for Both<A, B> {
    ghost count = { A.count + B.count };

    ghost requested = { either_requests A.requested A.count B.requested };

    ghost tallies = { λ both. A.tallies both.first ++ B.tallies both.second };

    fn report_by<D: Design, S: Source>(
        &mut self,
        survey: &Survey<D, S>,
        request: &Either<P, Q>,
    ) -> Result<(u32, u32), Fault> {
        match request {
            Either::First(request) => self.first.report_by(survey, request),
            Either::Second(request) => self.second.report_by(survey, request),
        }
    }

    ghost counted = { λ both. many_in (A.tallies both.first) (B.tallies both.second) A.count B.count (A.counted both.first) (B.counted both.second) };

    ghost fits = { either_for A.requested A.count B.requested B.count A.fits B.fits };
}
