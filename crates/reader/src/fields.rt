ghost use Rattle.std.specs.Prelude.{◌≡◌, ◌+◌, ◌<◌, [], ◌∷◌, length, decimal, MatchBool, IfErr, IfOk, OnOk};
ghost use Rattle.std.specs.Fmt.{signed_decimal};
ghost use Rattle.frame_file.specs.Pieces.{fields_of};
ghost use Rattle.frame_file.specs.Fields.{amount, number};
ghost use Rattle.frame_file.specs.Faults.{numbered_field, wrong};
ghost use Rattle.frame_file.specs.Written.{Between, MoneyFits};
ghost use Rattle.reader.specs.Cursors.{left, IsWrong, TakesField};
ghost use Rattle.frame_file.specs.Limits.{largest_amount};

use crate::cut::cut;
use crate::number::{money, natural};
use frame_file::fault::{FieldFault, FieldReason};

/// A line as it is read, field by field: what is left of it, if anything is, and the place of the next field. No line of a frame file has
/// a hundred fields that are read, so the column is asked to be below that, and its count cannot overflow.
#[derive(Drop)]
pub(crate) struct Fields<'a> {
    rest: Option<&'a [u8]>,
    line: u64,
    column: u64,
}

impl<'a> Fields<'a> {
    /// All fields of a line.
    pub(crate) fn new(text: &'a [u8], line: u64) -> Fields<'a>
        ensures left { left result ≡ fields_of text.now }
        ensures place { (result.line ≡ line) × (result.column ≡ 1) }
    {
        Fields {
            rest: Some(text),
            line,
            column: 1,
        }
    }

    // A fault of the next field.
    fn fault(&self, reason: FieldReason) -> FieldFault
        ensures { result ≡ record { reason = reason; line = self.now.line; column = self.now.column } }
    {
        FieldFault {
            reason,
            line: self.line,
            column: self.column,
        }
    }

    // Takes the text of the next field off the line.
    fn take(&mut self) -> Result<&'a [u8], FieldFault>
        ensures place { (self.new.line ≡ self.old.line) × (self.new.column ≡ self.old.column) }
        ensures taken { IfOk result (λ f. left self.old ≡ f.now ∷ left self.new) }
        ensures missing { IfErr result (λ e. (left self.old ≡ []) × (numbered_field e ≡ wrong 29 self.old.line self.old.column)) }
    {
        let Some(text) = self.rest.take() else {
            return Err(self.fault(FieldReason::Shape));
        };
        match cut(text, b',') {
            Some((field, rest)) => {
                self.rest = Some(rest);
                Ok(field)
            }
            None => Ok(text),
        }
    }

    /// The next field, which has to be a number from `low` to `high`.
    pub(crate) fn natural(&mut self, low: u32, high: u32) -> Result<u32, FieldFault>
        requires { self.old.column < 100 }
        ensures taken { IfOk result (λ n. TakesField self.old (decimal n) self.new × Between low high n) }
        ensures wrong { IfErr result (λ e. IsWrong (number low high) self.old (numbered_field e)) }
    {
        let field = self.take()?;
        match natural(field, low, high) {
            Ok(n) => {
                self.column += 1;
                Ok(n)
            }
            Err(reason) => Err(self.fault(reason)),
        }
    }

    /// The next field, which has to be an amount of money.
    pub(crate) fn money(&mut self) -> Result<i32, FieldFault>
        requires { self.old.column < 100 }
        ensures taken { IfOk result (λ z. TakesField self.old (signed_decimal z) self.new × MoneyFits z) }
        ensures wrong { IfErr result (λ e. IsWrong (amount largest_amount) self.old (numbered_field e)) }
    {
        let field = self.take()?;
        match money(field) {
            Ok(z) => {
                self.column += 1;
                Ok(z)
            }
            Err(reason) => Err(self.fault(reason)),
        }
    }

    /// Whether no field is left.
    #[tactic(auto, using(frame_laws::proofs::Parted::some_piece))]
    pub(crate) fn is_done(&self) -> bool
        ensures { MatchBool result (left self.now ≡ []) (0 < length (left self.now)) }
    {
        self.rest.is_none()
    }

    /// Refuses a field that is one too many.
    pub(crate) fn end(&self) -> Result<(), FieldFault>
        ensures done { OnOk result (left self.now ≡ []) }
        ensures surplus { IfErr result (λ e. (0 < length (left self.now)) × (numbered_field e ≡ wrong 29 self.now.line self.now.column)) }
    {
        if self.is_done() {
            Ok(())
        } else {
            Err(self.fault(FieldReason::Shape))
        }
    }
}
