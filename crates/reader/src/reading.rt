ghost use Rattle.std.specs.Prelude.{◌≡◌, Some, IfErr, IfOk};
ghost use Rattle.frame_file.specs.Pieces.{lines_of};
ghost use Rattle.frame_file.specs.Faults.{numbered_field};
ghost use Rattle.frame_file.specs.Refusals.{lines_refusal};
ghost use Rattle.frame_file.specs.Written.{units_written, UnitsFit};
ghost use Rattle.reader.specs.Reading.{HasNothingWrong, IsFirstWrong, IsRefusal, ReadsExactly, ReadsOrRefuses};

use crate::line::{read_header, read_takes, read_unit};
use crate::lines::Lines;
use bounded::BoundedVec;
use design::limits::MOST_ROWS;
use frame_file::fault::{FieldFault, FieldReason};
use frame_file::frame::{Frame, FrameUnit};

/// The most bytes that a frame file may have.
pub const MOST_BYTES: usize = 32_768;

// Reads the units, of a file of which two lines are read, into a list of them, whatever it held before.
fn read_units(
    from: Lines<'_>,
    units: &mut BoundedVec<FrameUnit, MOST_ROWS>,
) -> Result<(), FieldFault>
    requires { from.number ≡ 2 }
    ensures read { IfOk result (λ _. (from.entry.rest.now ≡ units_written units.new) × UnitsFit units.new) }
    ensures refused { IfErr result (λ e. lines_refusal 3 (lines_of from.entry.rest.now) ≡ Some (numbered_field e)) }
{
    units.clear();
    let mut lines = from;
    while let Some(text) = lines.next()? {
        if units.len() == MOST_ROWS {
            return Err(lines.fault(FieldReason::UnitCount));
        }
        units.push(read_unit(text, lines.number())?);
    }
    if units.len() == 0 {
        return Err(lines.fault(FieldReason::UnitCount));
    }
    Ok(())
}

// Reads a frame file line by line.
fn read_lines(mut frame: Frame, bytes: &[u8]) -> Result<Frame, FieldFault>
    ensures { ReadsOrRefuses bytes.now result }
{
    if bytes.len() > MOST_BYTES {
        return Err(FieldFault {
            reason: FieldReason::FileTooLong,
            line: 0,
            column: 0,
        });
    }
    let mut lines = Lines::new(bytes);
    frame.header = read_header(lines.required()?)?;
    read_takes(lines.required()?, &mut frame.takes)?;
    read_units(lines, &mut frame.units)?;
    Ok(frame)
}

/// Reads a frame file into the memory of a frame, which may have held anything before. It needs no other memory, so the bytes alone
/// settle its answer. A refusal drops the frame, so none is half read.
pub fn read(frame: Frame, bytes: &[u8]) -> Result<Frame, FieldFault>
    ensures exactly { ReadsExactly bytes.now result }
    ensures refused { IsRefusal bytes.now result }
    ensures first { IsFirstWrong bytes.now result }
    ensures else_nothing { HasNothingWrong bytes.now result }
{
    read_lines(frame, bytes)
}
