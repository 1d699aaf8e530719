ghost use Rattle.std.specs.Prelude.{◌≡◌, ◌<◌, ◌≤◌, length};
ghost use Rattle.design.specs.Faults.{Answers};
ghost use Rattle.weights.specs.Begun.{HaveWeights, OfPrescribed};
ghost use Rattle.weights.specs.Scale.{NoneTooHeavy, design_weight, weight_refusal};

use bounded::BoundedVec;
use design::design::Design;
use design::fault::{Fault, Reason};
use design::fraction::Fraction;
use design::limits::{LARGEST_WEIGHT, MOST_ROWS};

// The scale times the share turned over, which is the same in lowest terms or not: 128 bits hold the product of any two such numbers.
fn weight_of(scale: u32, share: Fraction) -> u128
    ensures { 0 < share.0 → result ≡ design_weight scale share.0 share.1 }
{
    let (numerator, denominator) = share;
    u128::from(scale) * u128::from(denominator) / u128::from(numerator.max(1))
}

/// Notes the weight of each of so many units of a design that has just begun, or refuses the first one whose weight is too large.
pub(crate) fn weigh<D: Design>(
    design: &D,
    units: u32,
    scale: u32,
    weights: &mut BoundedVec<u32, MOST_ROWS>,
) -> Result<(), Fault>
    requires { units ≤ 1024 }
    ensures answers { OfPrescribed D.Design design.now units (λ num den. Answers (weight_refusal scale units num den) (λ _. HaveWeights units num den scale weights.new) result) }
    ensures few { length weights.new ≤ 1024 }
    ensures none_too_heavy { NoneTooHeavy weights.new }
{
    weights.clear();
    for k in 0..units {
        let weight = weight_of(scale, design.share(k)?);
        if weight > u128::from(LARGEST_WEIGHT) {
            return Err(Fault::at(Reason::DesignWeightTooLarge, k));
        }
        weights.push(weight as u32);
    }
    Ok(())
}
