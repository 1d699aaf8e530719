ghost use Rattle.std.specs.Prelude.{◌≡◌, ◌*◌, ◌^◌, ◌<◌};

/// A part of a whole, as shares are answered: the pair of numerator and denominator.
pub type Fraction = (u64, u64);

/// A part of a part: the products of both numbers, where 64 bits hold them.
pub fn times(a: Fraction, b: Fraction) -> Fraction
    ensures numerator { a.0 * b.0 < 2 ^ 64 → result.0 ≡ a.0 * b.0 }
    ensures denominator { a.1 * b.1 < 2 ^ 64 → result.1 ≡ a.1 * b.1 }
{
    (a.0.wrapping_mul(b.0), a.1.wrapping_mul(b.1))
}
