ghost use Rattle.std.specs.Prelude.{◌≡◌, ◌+◌, ◌<◌, ◌≤◌, length};
ghost use Rattle.parts.specs.Bounds.{Rising};

use bounded::BoundedVec;
use design::fraction::Fraction;
use design::limits::MOST_ROWS;
use design::row::Row;

mod making;
mod reading;

/// The most bounds of a list: the first row of each part, and the row past the list.
const MOST_BOUNDS: usize = MOST_ROWS + 1;

/// A list cut into parts, and how far a design has come that runs on the chosen ones in turn. By units: the rows, the prescribed
/// shares, and which units of the parts behind are taken. By parts: the first rows, and at last the row past the list; the sample sizes;
/// and which parts are chosen. The stage is the present part, or the number of parts where all are behind, and `moved` says whether a step
/// was made since the design began there.
#[derive(Drop)]
pub struct PartTable {
    pub(crate) rows: BoundedVec<Row, MOST_ROWS>,
    pub(crate) shares: BoundedVec<Fraction, MOST_ROWS>,
    pub(crate) taken: BoundedVec<bool, MOST_ROWS>,
    pub(crate) bounds: BoundedVec<u32, MOST_BOUNDS>,
    pub(crate) samples: BoundedVec<u32, MOST_ROWS>,
    pub(crate) chosen: BoundedVec<bool, MOST_ROWS>,
    pub(crate) stage: usize,
    pub(crate) moved: bool,
    // Repeated here, as who holds a BoundedVec sees its items only, and not its invariant.
    ghost rows_few: { length rows ≤ 1024 },
    ghost shares_all: { length shares ≡ length rows },
    ghost taken_all: { length taken ≡ length rows },
    ghost bounds_rise: { ∥ Rising bounds (length rows) ∥₁ },
    ghost bounds_few: { length bounds ≤ length rows + 1 },
    ghost samples_all: { length samples + 1 ≡ length bounds },
    ghost chosen_all: { length chosen + 1 ≡ length bounds },
    ghost stage_within: { stage < length bounds },
}
