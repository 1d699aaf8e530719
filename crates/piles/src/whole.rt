ghost use Rattle.piles.specs.Begun.{FirstWays, FirstShare};

use design::design::Design;
use design::fault::Fault;
use design::fraction::Fraction;
use design::row::Row;

/// Begins a design, and answers the ways of its first throw.
pub fn first_ways<D: Design>(design: &mut D, list: &[Row], n: u32) -> Result<u32, Fault>
    ensures { FirstWays (D.Design.plan design.old list.now n) result }
{
    design.begin(list, n)?;
    Ok(design.ways())
}

/// Begins a design, and answers the share of the unit k, which is the prescribed one.
pub fn first_share<D: Design>(
    design: &mut D,
    list: &[Row],
    n: u32,
    k: u32,
) -> Result<Fraction, Fault>
    ensures { FirstShare (D.Design.plan design.old list.now n) k result }
{
    design.begin(list, n)?;
    design.share(k)
}
