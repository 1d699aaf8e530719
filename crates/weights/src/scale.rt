ghost use Rattle.std.specs.Prelude.{◌≡◌, ◌<◌, ◌≤◌, nat_lt, IfOk};
ghost use Rattle.design.specs.Faults.{Answers, refused_if};
ghost use Rattle.weights.specs.Begun.{OfPrescribed};
ghost use Rattle.weights.specs.Laws.{GreatestDivisor, LowestTerms, LeastScale, ExactWeights};
ghost use Rattle.weights.specs.Scale.{lcm, scale_of, scale_refusal};

use crate::terms::{common_divisor, lowest_terms};
use design::design::Design;
use design::fault::{Fault, Reason};

/// The largest scale that a frame may have.
pub const LARGEST_SCALE: u64 = 1_000_000;

// The least common multiple of two numbers, where it is no larger than a scale may be. It only grows from unit to unit, so a frame
// whose scale passes the largest one is refused as soon as it does.
fn least_common_multiple(a: u64, b: u64) -> Result<u64, Fault>
    ensures answers { 0 < a → 0 < b → Answers (refused_if (nat_lt 1000000 (lcm a b)) 22) (λ m. m ≡ lcm a b) result }
    ensures small { IfOk result (λ m. m ≤ 1000000) }
{
    // No divisor is 0 but that of 0 and 0.
    let common = common_divisor(a, b).max(1);
    let multiple = (a / common).saturating_mul(b);
    if multiple > LARGEST_SCALE {
        return Err(Fault::of(Reason::ScaleTooLarge));
    }
    Ok(multiple)
}

/// The scale of a design that has just begun on so many units.
pub(crate) fn find_scale<D: Design>(design: &D, units: u32) -> Result<u32, Fault>
    ensures answers { OfPrescribed D.Design design.now units (λ num den. Answers (scale_refusal units num den) (λ s. s ≡ scale_of units num den) result) }
    ensures small { IfOk result (λ s. s ≤ 1000000) }
{
    let mut scale = 1;
    for k in 0..units {
        let (top, _) = lowest_terms(design.share(k)?);
        scale = least_common_multiple(scale, top)?;
    }
    Ok(scale as u32)
}

/// The laws of scale and design weights.
pub fn scale_stands()
    ensures greatest_divisor { GreatestDivisor }
    ensures lowest_terms { LowestTerms }
    ensures least_scale { LeastScale }
    ensures exact_weights { ExactWeights }
{}
