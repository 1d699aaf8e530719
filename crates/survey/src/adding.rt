ghost use Rattle.std.specs.Prelude.{◌≡◌, ◌≤◌, length};
ghost use Rattle.design.specs.Lists.{first};
ghost use Rattle.plain_survey.specs.Reports.{unlawful_at};
ghost use Rattle.survey.specs.Adding.{AddsUp};
ghost use Rattle.survey.specs.Means.{kind_of};

use design::design::Design;
use design::fault::Fault;
use totals::total::Total;

// The first reading that is not lawful.
pub(crate) fn first_unlawful<T: Total>(readings: &[T::Reading]) -> Option<usize>
    ensures { result ≡ first (length readings.now) (unlawful_at (kind_of T.Total) readings.now) }
{
    readings.iter().position(|reading| !T::lawful(reading))
}

// Clears the total, adds weight and reading of each taken unit, and answers how many those are.
#[tactic(auto, using(crate::proofs::TakenUnits::cleared))]
pub(crate) fn add_taken<D: Design, T: Total>(
    design: &D,
    weights: &[u32],
    readings: &[T::Reading],
    total: &mut T,
) -> Result<u32, Fault>
    requires few { length readings.now ≤ 1024 }
    requires as_many { length weights.now ≡ length readings.now }
    ensures { AddsUp D.Design T.Total design.now weights.now readings.now total.new result }
{
    total.clear();
    let mut taken = 0;
    for (k, reading) in readings.iter().enumerate() {
        if design.taken(k as u32)? {
            total.add(weights[k], reading)?;
            taken += 1;
        }
    }
    Ok(taken)
}
