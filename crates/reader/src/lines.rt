ghost use Rattle.std.specs.Prelude.{◌≡◌, ◌+◌, ◌<◌, [], MatchOption, IfErr, IfOk};
ghost use Rattle.frame_file.specs.Faults.{numbered_field, number_of_field, wrong};
ghost use Rattle.reader.specs.Cursors.{IsCutOff, NoLine, TakesLine};

use crate::cut::cut;
use frame_file::fault::{FieldFault, FieldReason};

/// A file as it is read, line by line: what is left of it, and the number of the line last asked for. No frame file has ten thousand lines
/// that are read, so the number is asked to be below that, and its count cannot overflow.
#[derive(Drop)]
pub(crate) struct Lines<'a> {
    rest: &'a [u8],
    number: u64,
}

impl<'a> Lines<'a> {
    /// All lines of a file.
    pub(crate) fn new(bytes: &'a [u8]) -> Lines<'a>
        ensures { (result.rest.now ≡ bytes.now) × (result.number ≡ 0) }
    {
        Lines {
            rest: bytes,
            number: 0,
        }
    }

    /// The number of the line last asked for.
    pub(crate) fn number(&self) -> u64
        ensures { result ≡ self.now.number }
    {
        self.number
    }

    /// A fault of the whole line last asked for.
    pub(crate) fn fault(&self, reason: FieldReason) -> FieldFault
        ensures { numbered_field result ≡ wrong (number_of_field reason) self.now.number 1 }
    {
        FieldFault {
            reason,
            line: self.number,
            column: 1,
        }
    }

    /// The next line without its end byte, if there is a line.
    #[tactic(auto, using(frame_laws::proofs::LineSteps::no_whole_line))]
    pub(crate) fn next(&mut self) -> Result<Option<&'a [u8]>, FieldFault>
        requires { self.old.number < 10000 }
        ensures number { self.new.number ≡ self.old.number + 1 }
        ensures taken { IfOk result (λ line. MatchOption line (self.old.rest.now ≡ []) (λ text. TakesLine self.old text.now self.new)) }
        ensures cut_off { IfErr result (λ e. IsCutOff self.old.rest.now × (numbered_field e ≡ wrong 29 self.new.number 1)) }
    {
        self.number += 1;
        if self.rest.is_empty() {
            return Ok(None);
        }
        let Some((text, rest)) = cut(self.rest, b'\n') else {
            return Err(self.fault(FieldReason::Shape));
        };
        self.rest = rest;
        Ok(Some(text))
    }

    /// The next line, where one has to be.
    pub(crate) fn required(&mut self) -> Result<&'a [u8], FieldFault>
        requires { self.old.number < 10000 }
        ensures number { self.new.number ≡ self.old.number + 1 }
        ensures taken { IfOk result (λ text. TakesLine self.old text.now self.new) }
        ensures missing { IfErr result (λ e. NoLine self.old.rest.now × (numbered_field e ≡ wrong 29 self.new.number 1)) }
    {
        self.next()?.ok_or(self.fault(FieldReason::Shape))
    }
}
