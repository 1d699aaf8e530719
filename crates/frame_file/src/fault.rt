ghost use Rattle.std.specs.Prelude.{◌≡◌};
ghost use Rattle.design.specs.Faults.{numbered};
ghost use Rattle.frame_file.specs.Faults.{number_of_field, number_of_cause, depth_of, line_concerned, of_field, of_survey};

use design::fault::{Fault, Reason};

/// What is wrong at a field, at a line, or in the file as a whole. Each has a published number.
#[derive(Clone, Copy, PartialEq, Eq, Debug)]
pub enum FieldReason {
    /// A field, a line or an end byte is missing, or a field is one too many.
    Shape = 29,
    NotANumber = 30,
    OutOfRange = 31,
    /// No unit, or one too many.
    UnitCount = 32,
    FileTooLong = 33,
}

/// A fault of a frame file, by its line and its column; both count from 1, and are 0 where the whole file is at fault.
#[derive(Clone, Copy, PartialEq, Eq, Debug)]
pub struct FieldFault {
    pub reason: FieldReason,
    pub line: u64,
    pub column: u64,
}

/// Why a frame file has no sample: something is wrong in the file itself, or the design or the survey refuses what it says.
#[derive(Clone, Copy, PartialEq, Eq, Debug)]
pub enum Cause {
    Field(FieldReason),
    Survey(Fault),
}

/// A refusal of a frame file: the lower fault, whole, with the line and the column that it concerns.
#[derive(Clone, Copy, PartialEq, Eq, Debug)]
pub struct FileFault {
    pub cause: Cause,
    pub line: u64,
    pub column: u64,
}

impl FieldReason {
    /// The published number.
    pub fn number(self) -> u8
        ensures { result ≡ number_of_field self }
    {
        self as u8
    }
}

impl Cause {
    /// The published number.
    pub fn number(self) -> u8
        ensures { result ≡ number_of_cause self }
    {
        match self {
            Cause::Field(reason) => reason.number(),
            Cause::Survey(fault) => fault.reason.number(),
        }
    }

    /// How many layers have passed the fault upward: none where the file itself is at fault.
    pub fn depth(self) -> u8
        ensures { result ≡ depth_of self }
    {
        match self {
            Cause::Field(_) => 0,
            Cause::Survey(fault) => fault.depth,
        }
    }
}

// The line of the unit 0.
const FIRST_UNIT_LINE: u64 = 3;

// The line of the frame file that a fault of the design or of the survey concerns: that of its row, or 0 where the whole file is at fault.
fn line_of(fault: Fault) -> u64
    ensures { result ≡ line_concerned (numbered fault) }
{
    match fault.reason {
        Reason::Dry | Reason::ScaleTooLarge => 0,
        _ => u64::from(fault.row) + FIRST_UNIT_LINE,
    }
}

impl From<FieldFault> for FileFault {
    ghost from_gives = { λ fault e. e ≡ of_field fault };

    fn from(fault: FieldFault) -> FileFault {
        FileFault {
            cause: Cause::Field(fault.reason),
            line: fault.line,
            column: fault.column,
        }
    }
}

impl From<Fault> for FileFault {
    ghost from_gives = { λ fault e. e ≡ of_survey fault };

    fn from(fault: Fault) -> FileFault {
        FileFault {
            cause: Cause::Survey(fault),
            line: line_of(fault),
            column: 0,
        }
    }
}
