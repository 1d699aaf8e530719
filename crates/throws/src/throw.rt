ghost use Rattle.std.specs.Prelude.{◌≡◌};
ghost use Rattle.design.specs.Faults.{told};
ghost use Rattle.throws.specs.Words.{thrown, left};
ghost use Rattle.throws.specs.Laws.{DryExactly, EachAsOften, PassedOver};

use crate::source::Source;
use design::fault::{Fault, Reason};
use design::limits::LARGEST_TOTAL;

/// A throw with m ways: the first waiting word below the largest multiple of m that 32 bits hold, by its remainder.
/// The words up to it are taken.
pub fn throw<S: Source>(source: &mut S, m: u32) -> Result<u32, Fault>
    ensures answer { told result ≡ thrown m (S.Source.waiting source.old) }
    ensures words { S.Source.waiting source.new ≡ left m (S.Source.waiting source.old) }
{
    if m == 0 || m > LARGEST_TOTAL {
        return Err(Fault::of(Reason::WaysOutOfRange));
    }
    let ways = u64::from(m);
    let limit = (1u64 << 32) / ways * ways;
    while let Some(w) = source.word() {
        if u64::from(w) < limit {
            return Ok(w % m);
        }
    }
    Err(Fault::of(Reason::Dry))
}

/// A throw is dry exactly where no waiting word serves; among the words that serve each answer stands equally often; and a
/// throw that answers passes over the words that do not serve, up to the first that does.
pub fn throws_stand()
    ensures dry_exactly { DryExactly }
    ensures each_as_often { EachAsOften }
    ensures passed_over { PassedOver }
{}
