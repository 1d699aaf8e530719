ghost use Rattle.std.specs.Prelude.{◌≡◌, ◌≤◌, length, string_bytes};
ghost use Rattle.plain_survey.specs.States.{PlainRun};
ghost use Rattle.response.specs.Failures.{Gets};
ghost use Rattle.response.specs.Reported.{AppendsTaken};
ghost use Rattle.response.specs.Runs.{StandsAt, shares_now};
ghost use Rattle.survey.specs.Means.{plans};

use crate::failure::Failure;
use design::design::Design;
use design::fraction::Fraction;
use sample_file::text::write_unit;
use std::alloc::Global;
use survey::survey::Survey;
use throws::source::Source;

/// The share of each of a run's units, as it is now.
pub(crate) fn shares_of<D: Design, S: Source>(
    heap: Global,
    survey: &Survey<D, S>,
    units: u32,
) -> Result<Vec<Fraction>, Failure>
    ensures { (r : PlainRun) → StandsAt D.Design S.Source survey.now r → units ≡ length r.list → Gets (λ shares. shares.items ≡ shares_now (plans D.Design survey.now) r) result }
{
    let mut shares = Vec::with_capacity(heap, units as usize)?;
    for k in 0..units {
        shares.push(survey.share(k)?)?;
    }
    Ok(shares)
}

/// Appends the line of each unit taken of a run that has come to its outcome, with its share of these.
pub(crate) fn write_taken<D: Design, S: Source>(
    text: &mut String,
    survey: &Survey<D, S>,
    shares: &[Fraction],
) -> Result<(), Failure>
    requires { length shares.now ≤ 1024 }
    ensures { AppendsTaken D.Design S.Source survey.now shares.now (string_bytes text.old) (string_bytes text.new) result }
{
    for (k, share) in shares.iter().enumerate() {
        if survey.taken(k as u32)? {
            write_unit(text, k as u32, *share)?;
        }
    }
    Ok(())
}
