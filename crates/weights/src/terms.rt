ghost use Rattle.std.specs.Prelude.{◌≡◌};
ghost use Rattle.weights.specs.Scale.{gcd, top, bottom};

use design::fraction::Fraction;

/// The greatest common divisor, by Euclid's steps.
pub fn common_divisor(a: u64, b: u64) -> u64
    ensures { result ≡ gcd a b }
{
    let (mut x, mut y) = (a, b);
    while y != 0 {
        (x, y) = (y, x % y);
    }
    x
}

/// The same share in lowest terms.
pub fn lowest_terms(share: Fraction) -> Fraction
    ensures numerator { result.0 ≡ top share.0 share.1 }
    ensures denominator { result.1 ≡ bottom share.0 share.1 }
{
    // The common divisor is 0 for 0 / 0 alone, which is left as it is.
    let (numerator, denominator) = share;
    let common = common_divisor(numerator, denominator).max(1);
    (numerator / common, denominator / common)
}
