ghost use Rattle.std.specs.Prelude.{◌≡◌};
ghost use Rattle.response.specs.Runs.{DrawsOut};
ghost use Rattle.survey.specs.Means.{plans};

use design::design::Design;
use design::fault::Fault;
use survey::survey::Survey;
use throws::source::Source;

/// Draws until a draw is refused, and answers that refusal.
pub(crate) fn draw_out<D: Design, S: Source>(survey: &mut Survey<D, S>) -> Fault
    ensures drawn { DrawsOut D.Design S.Source survey.old result survey.new }
    ensures settings { plans D.Design survey.new ≡ plans D.Design survey.old }
{
    loop {
        if let Err(fault) = survey.draw() {
            return fault;
        }
    }
}
