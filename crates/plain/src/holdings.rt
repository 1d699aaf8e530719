ghost use Rattle.std.specs.Prelude.{◌≤◌, length};

use bounded::BoundedVec;
use design::limits::MOST_ROWS;

pub mod calls;

/// The units of a plain design's run. Each holds a part of the total: at first its goal, n times its size; in the end all of it, if the
/// unit is taken, or nothing. At any time its share is what it holds over the total.
#[derive(Drop)]
pub struct Holdings {
    holds: BoundedVec<u32, MOST_ROWS>,
    // The total, while a run stands.
    total: Option<u32>,
    // Repeated here, as who holds a BoundedVec sees its items only, and not its invariant.
    ghost few: { length holds ≤ 1024 },
}
