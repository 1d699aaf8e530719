ghost use Rattle.std.specs.Prelude.{◌≡◌, ◌==◌};
ghost use Rattle.design.specs.Faults.{numbered};
ghost use Rattle.frame_file.specs.Written.{UnitsFit};
ghost use Rattle.response.specs.Failures.{Prints};
ghost use Rattle.response.specs.Responses.{PrintsWith};
ghost use Rattle.survey.specs.Means.{plans, words};

use crate::asking::shares_of;
use crate::columns::rows_of;
use crate::drawing::draw_out;
use crate::failure::Failure;
use crate::reporting::text_of;
use design::design::Design;
use design::fault::{Fault, Reason};
use frame_file::frame::Frame;
use std::alloc::Global;
use survey::survey::Survey;
use throws::source::Source;

// Whether a draw was refused because the run has come to its outcome.
fn is_outcome(refusal: Fault) -> bool
    ensures { result ≡ ((numbered refusal).number == 17) }
{
    refusal.reason == Reason::NoWays
}

/// Samples a frame: starts a survey on its rows, draws it out, and gives the text of the sample with the prescribed shares. These are the
/// calls of one list, as `conduct` makes them: a start, shares, draws, reports, and questions whether units are taken.
pub(crate) fn sample<D: Design, S: Source>(
    heap: Global,
    survey: &mut Survey<D, S>,
    frame: &Frame,
) -> Result<String, Failure>
    requires { UnitsFit frame.now.units }
    ensures { Prints (PrintsWith (plans D.Design survey.old) (words S.Source survey.old) frame.now) result }
{
    let rows = rows_of(heap, frame)?;
    survey.start(&rows, frame.header.n)?;
    // Directly after the start, shares are the prescribed ones.
    let shares = shares_of(heap, survey, rows.len() as u32)?;
    let refusal = draw_out(survey);
    if !is_outcome(refusal) {
        return Err(Failure::from(refusal));
    }
    text_of(heap, survey, frame, &shares)
}

/// Samples a frame by this design, with the words of this source.
pub(crate) fn sample_by<D: Design + Drop, S: Source + Drop>(
    heap: Global,
    design: D,
    source: S,
    frame: &Frame,
) -> Result<String, Failure>
    requires { UnitsFit frame.now.units }
    ensures { Prints (PrintsWith (D.Design.plan design) (S.Source.waiting source) frame.now) result }
{
    let mut survey = Survey::new(heap, design, source)?;
    sample(heap, &mut survey, frame)
}
