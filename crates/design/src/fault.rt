ghost use Rattle.std.specs.Prelude.{◌≡◌, Some};
ghost use Rattle.design.specs.Faults.{number_of, numbered, refusal_at, refusal_passed_up, fault_text};

use std::error::Error;
use std::fmt;

/// Why a call was refused. Each reason has a published number.
#[derive(Clone, Copy, PartialEq, Eq, Debug)]
pub enum Reason {
    /// begin: the list has no rows.
    EmptyList = 1,
    /// begin: the list has more than 1,024 rows.
    TooManyRows = 2,
    /// begin: the sample size is 0.
    NoSample = 3,
    /// begin: a row has size 0.
    SizeZero = 4,
    /// begin: the sizes add up to more than 10,240,000.
    SizesTooLarge = 5,
    /// begin of a plain design: a unit would be taken more than once.
    ShareAboveOne = 6,
    /// allot: no takes, or more than 64.
    TakesOutOfRange = 7,
    /// allot: a take of 0.
    TakeZero = 8,
    /// within: a number that is not from 1 to 1,024.
    WithinOutOfRange = 9,
    /// begin of a layer: no takes, or no number, are set.
    NothingSet = 10,
    /// begin of a layer: a row's stratum, or stratum and cluster, are lower than those of the row before it.
    OutOfOrder = 11,
    /// begin of stratification: the strata are not as many as the takes.
    StrataNotTakes = 12,
    /// begin of stratification: the takes do not add up to the sample size.
    TakesNotSample = 13,
    /// begin of two-stage drawing: the sample size is no multiple of the number for a cluster.
    SampleNotMultiple = 14,
    /// begin of two-stage drawing: more than 128 clusters.
    TooManyClusters = 15,
    /// begin of two-stage drawing: a product of denominators is above 10^15.
    DenominatorTooLarge = 16,
    /// step or draw: no run stands, or it has come to its outcome.
    NoWays = 17,
    /// step: the throw is not below the ways.
    NoSuchThrow = 18,
    /// share or taken: no run stands, or the list has no such unit.
    NoSuchUnit = 19,
    /// throw: the ways are not from 1 to 10,240,000.
    WaysOutOfRange = 20,
    /// throw: no waiting word serves.
    Dry = 21,
    /// start: the scale is above 1,000,000.
    ScaleTooLarge = 22,
    /// start: a unit's design weight is above 10^9.
    DesignWeightTooLarge = 23,
    /// report: no run stands that has come to its outcome.
    NoFinishedRun = 24,
    /// report: the readings are not as many as the units.
    ReadingsNotAsUnits = 25,
    /// report or add: a reading that is not lawful.
    UnlawfulReading = 26,
    /// add: the weight is above 10^9.
    AddedWeightTooLarge = 27,
    /// add: 1,024 additions were made since the total was cleared.
    TotalFull = 28,
}

/// A refusal: its reason, the row concerned (by rule 0 where none is), and how many layers have passed it upward.
#[derive(Clone, Copy, PartialEq, Eq, Debug)]
pub struct Fault {
    pub reason: Reason,
    pub row: u32,
    pub depth: u8,
}

impl Reason {
    /// The published number.
    pub fn number(self) -> u8
        ensures { result ≡ number_of self }
    {
        self as u8
    }
}

impl Fault {
    /// A fault of this very call that names no row.
    pub fn of(reason: Reason) -> Fault
        ensures { numbered result ≡ refusal_at (number_of reason) 0 }
    {
        Fault::at(reason, 0)
    }

    /// A fault of this very call at a row.
    pub fn at(reason: Reason, row: u32) -> Fault
        ensures { numbered result ≡ refusal_at (number_of reason) row }
    {
        Fault {
            reason,
            row,
            depth: 0,
        }
    }

    /// This fault as the layer above passes it upward, at a row of its own list.
    pub fn passed_up(self, row: u32) -> Fault
        ensures { numbered result ≡ refusal_passed_up row (numbered self) }
    {
        Fault {
            reason: self.reason,
            row,
            depth: self.depth.saturating_add(1),
        }
    }
}

impl fmt::Display for Fault {
    ghost output = { λ f. Some (fault_text f) };

    fn fmt<W: fmt::Write>(&self, f: &mut fmt::Formatter<W>) -> fmt::Result {
        let number = self.reason.number();
        let row = self.row;
        let depth = self.depth;
        write!(f, "fault {number} at row {row}, depth {depth}")
    }
}

impl Error for Fault {}
