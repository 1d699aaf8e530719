ghost use Rattle.std.specs.Prelude.{◌≡◌, ◌+◌, ◌≤◌, OnErr};
ghost use Rattle.design.specs.Faults.{Answers};
ghost use Rattle.totals.specs.Additions.{add_refusal};

use design::fault::{Fault, Reason};
use design::limits::LARGEST_WEIGHT;

/// The most additions that a total takes until it is cleared.
pub const MOST_ADDITIONS: u16 = 1024;

/// How often a total of any kind was added to since it was cleared.
#[derive(Drop)]
pub struct Additions {
    count: u16,
    ghost few: { count ≤ 1024 },
}

impl Additions {
    /// No additions yet.
    pub fn new() -> Additions
        ensures { result.count ≡ 0 }
    {
        Additions { count: 0 }
    }

    /// Counts one more, with the weight w and a reading that is lawful or not, or refuses it.
    pub fn admit(&mut self, w: u32, lawful: bool) -> Result<(), Fault>
        ensures answered { Answers (add_refusal w lawful self.old.count) (λ _. self.new.count ≡ self.old.count + 1) result }
        ensures kept { OnErr result (self.new.count ≡ self.old.count) }
    {
        if w > LARGEST_WEIGHT {
            return Err(Fault::of(Reason::AddedWeightTooLarge));
        }
        if !lawful {
            return Err(Fault::of(Reason::UnlawfulReading));
        }
        if self.count >= MOST_ADDITIONS {
            return Err(Fault::of(Reason::TotalFull));
        }
        self.count += 1;
        Ok(())
    }
}
