ghost use Rattle.std.specs.Prelude.{◌≤◌, All, IsTrue, length};
ghost use Rattle.frame_file.specs.Written.{UnitsFit};
ghost use Rattle.response.specs.Reported.{GivesTallies, GivesTally, GivesText};
ghost use Rattle.survey.specs.Means.{kind_of};

use crate::asking::write_taken;
use crate::columns::{amounts_of, cells_of};
use crate::failure::Failure;
use design::design::Design;
use design::fraction::Fraction;
use frame_file::frame::Frame;
use sample_file::text::write_report;
use std::alloc::Global;
use survey::survey::Survey;
use throws::source::Source;
use totals::money::Money;
use totals::table::Table;
use totals::total::Total;

/// Reports readings of a run that has come to its outcome into a total, and answers the scale.
pub(crate) fn tally<D: Design, S: Source, T: Total>(
    survey: &Survey<D, S>,
    readings: &[T::Reading],
    total: &mut T,
) -> Result<u32, Failure>
    requires { All (λ reading. IsTrue (T.is_lawful reading)) readings.now }
    ensures { GivesTally D.Design S.Source (kind_of T.Total) survey.now readings.now (T.entries total.new) result }
{
    let (scale, _) = survey.report(readings, total)?;
    Ok(scale)
}

/// What is reported of a sample: the scale, and both totals.
#[derive(Drop)]
pub(crate) struct Tallies {
    scale: u32,
    money: Money,
    table: Table,
}

/// Reports the readings of a frame's units.
pub(crate) fn tallies_of<D: Design, S: Source>(
    heap: Global,
    survey: &Survey<D, S>,
    frame: &Frame,
) -> Result<Tallies, Failure>
    requires { UnitsFit frame.now.units }
    ensures { GivesTallies D.Design S.Source ⟦<Money as Total>⟧ ⟦<Table as Total>⟧ survey.now frame.now result }
{
    let amounts = amounts_of(heap, frame)?;
    let mut money = Money::new();
    let scale = tally(survey, &amounts, &mut money)?;
    let cells = cells_of(heap, frame)?;
    let mut table = Table::new();
    tally(survey, &cells, &mut table)?;
    Ok(Tallies {
        scale,
        money,
        table,
    })
}

/// The text of a sample: the units taken, each with its share of these, and what is reported of them.
pub(crate) fn text_of<D: Design, S: Source>(
    heap: Global,
    survey: &Survey<D, S>,
    frame: &Frame,
    shares: &[Fraction],
) -> Result<String, Failure>
    requires few { length shares.now ≤ 1024 }
    requires fit { UnitsFit frame.now.units }
    ensures { GivesText D.Design S.Source survey.now frame.now shares.now result }
{
    let tallies = tallies_of(heap, survey, frame)?;
    let mut text = String::new(heap);
    write_taken(&mut text, survey, shares)?;
    write_report(&mut text, tallies.scale, &tallies.money, &tallies.table)?;
    Ok(text)
}
