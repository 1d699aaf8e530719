ghost use Rattle.std.specs.Prelude.{◌≡◌, IfOk};
ghost use Rattle.response.specs.Responses.{amounts_of, cells_of, list_of};

use design::row::Row;
use frame_file::frame::Frame;
use std::alloc::{AllocError, Global};
use totals::table::Cell;

/// The rows of a frame's units.
pub(crate) fn rows_of(heap: Global, frame: &Frame) -> Result<Vec<Row>, AllocError>
    ensures { IfOk result (λ rows. rows.items ≡ list_of frame.now) }
{
    let units = frame.units.as_slice();
    units.iter().map(|unit| unit.row).collect(heap)
}

/// The amount of money of each unit.
pub(crate) fn amounts_of(heap: Global, frame: &Frame) -> Result<Vec<i32>, AllocError>
    ensures { IfOk result (λ amounts. amounts.items ≡ amounts_of frame.now) }
{
    let units = frame.units.as_slice();
    units.iter().map(|unit| unit.money).collect(heap)
}

/// The cell of each unit.
pub(crate) fn cells_of(heap: Global, frame: &Frame) -> Result<Vec<Cell>, AllocError>
    ensures { IfOk result (λ cells. cells.items ≡ cells_of frame.now) }
{
    let units = frame.units.as_slice();
    units.iter().map(|unit| unit.cell).collect(heap)
}
