ghost use Rattle.std.specs.Prelude.{◌≡◌, Some, IfErr, IfOk};
ghost use Rattle.frame_file.specs.Pieces.{fields_of};
ghost use Rattle.frame_file.specs.Fields.{header_form, takes_form, unit_form};
ghost use Rattle.frame_file.specs.Faults.{numbered_field};
ghost use Rattle.frame_file.specs.Refusals.{fields_refusal};
ghost use Rattle.frame_file.specs.Written.{header_fields, takes_fields, unit_fields, HeaderFits, TakesFit, UnitFits};

use crate::fields::Fields;
use bounded::BoundedVec;
use design::limits::MOST_TAKES;
use design::row::Row;
use frame_file::fault::FieldFault;
use frame_file::frame::{FrameUnit, Header, LARGEST_SAMPLE, LARGEST_SIZE};
use totals::table::{CELLS, Cell};

// The highest stratum, and the highest cluster.
const LAST_PLACE: u32 = u16::MAX as u32;

// The highest cell.
const LAST_CELL: u32 = CELLS as u32 - 1;

/// Reads line 1, the header.
pub(crate) fn read_header(text: &[u8]) -> Result<Header, FieldFault>
    ensures read { IfOk result (λ h. (fields_of text.now ≡ header_fields h) × HeaderFits h) }
    ensures refused { IfErr result (λ e. fields_refusal header_form 1 1 (fields_of text.now) ≡ Some (numbered_field e)) }
{
    let mut fields = Fields::new(text, 1);
    let n = fields.natural(1, LARGEST_SAMPLE)?;
    let m = fields.natural(1, LARGEST_SAMPLE)?;
    let seed = fields.natural(1, u32::MAX)?;
    fields.end()?;
    Ok(Header { n, m, seed })
}

/// Reads the line of a unit.
pub(crate) fn read_unit(text: &[u8], line: u64) -> Result<FrameUnit, FieldFault>
    ensures read { IfOk result (λ u. (fields_of text.now ≡ unit_fields u) × UnitFits u) }
    ensures refused { IfErr result (λ e. fields_refusal unit_form line 1 (fields_of text.now) ≡ Some (numbered_field e)) }
{
    let mut fields = Fields::new(text, line);
    let stratum = fields.natural(0, LAST_PLACE)? as u16;
    let cluster = fields.natural(0, LAST_PLACE)? as u16;
    let size = fields.natural(1, LARGEST_SIZE)?;
    let money = fields.money()?;
    let at = fields.natural(0, LAST_CELL)? as u8;
    fields.end()?;
    Ok(FrameUnit {
        row: Row::new(stratum, cluster, size),
        money,
        cell: Cell { at },
    })
}

/// Reads line 2, the takes, into a list of them, whatever it held before.
pub(crate) fn read_takes(
    text: &[u8],
    takes: &mut BoundedVec<u32, MOST_TAKES>,
) -> Result<(), FieldFault>
    ensures read { IfOk result (λ _. (fields_of text.now ≡ takes_fields takes.new) × TakesFit takes.new) }
    ensures refused { IfErr result (λ e. fields_refusal takes_form 2 1 (fields_of text.now) ≡ Some (numbered_field e)) }
{
    takes.clear();
    let mut fields = Fields::new(text, 2);
    while takes.len() < MOST_TAKES && !fields.is_done() {
        takes.push(fields.natural(1, LARGEST_SAMPLE)?);
    }
    fields.end()
}
