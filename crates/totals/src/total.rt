ghost use Rattle.std.specs.Prelude.{◌≡◌, ℕ, ◌+◌, ◌≤◌, Bool, true, ℤ, List, length, OnOk, OnErr, slice_get};
ghost use Rattle.design.specs.Faults.{Answers};
ghost use Rattle.totals.specs.Additions.{add_refusal};
ghost use Rattle.totals.specs.Rows.{raised, zeros, IsRow};

use design::fault::Fault;

/// A kind of total. Its meaning is its entries, and the count of additions since it was cleared.
pub trait Total {
    /// What is added: a lawful reading means a row of whole numbers.
    type Reading;

    /// The largest magnitude that a number of a lawful reading's row may have.
    const REACH: u32;

    /// The same number, for clauses: an implementation gives both, and they have to be equal.
    ghost REACH: { ℕ };

    /// How many numbers a row has, and how many entries a total.
    const WIDTH: usize;

    /// The same number, for clauses, as with the reach.
    ghost WIDTH: { ℕ };

    /// Which readings are lawful.
    ghost is_lawful: { Self.Reading → Bool };

    /// The row that a reading means.
    ghost row: { Self.Reading → List ℤ };

    /// The entries of a total.
    ghost entries: { Self → List ℤ };

    /// How often it was added to since it was cleared.
    ghost additions: { Self → ℕ };

    /// Whether a reading is lawful.
    fn lawful(reading: &Self::Reading) -> bool
        ensures { result ≡ is_lawful reading.now };

    /// Sets all entries to 0.
    fn clear(&mut self)
        ensures zeroed { entries self.new ≡ zeros (entries self.old) }
        ensures restarted { additions self.new ≡ 0 };

    /// Raises each entry by w times the reading's number there, or refuses; refused, nothing changes.
    fn add(&mut self, w: u32, reading: &Self::Reading) -> Result<(), Fault>
        ensures answered { Answers (add_refusal w (is_lawful reading.now) (additions self.old)) (λ _. Unit {0}) result }
        ensures raised { OnOk result (entries self.new ≡ raised w (entries self.old) (row reading.now)) }
        ensures counted { OnOk result (additions self.new ≡ additions self.old + 1) }
        ensures entries_kept { OnErr result (entries self.new ≡ entries self.old) }
        ensures count_kept { OnErr result (additions self.new ≡ additions self.old) };

    /// The entry i, and none past the last.
    fn entry(&self, i: usize) -> Option<i64>
        ensures { result ≡ slice_get (entries self.now) i };

    /// The reach is at most a million.
    ghost small: { REACH ≤ 1000000 };

    /// A row has at least one number.
    ghost some: { 1 ≤ WIDTH };

    /// The row of a lawful reading has so many numbers as the kind fixes, none above the reach in magnitude.
    ghost rows: { (reading : Self.Reading) → is_lawful reading ≡ true → IsRow WIDTH REACH (row reading) };

    /// A total has as many entries as a row has numbers.
    ghost wide: { (total : Self) → length (entries total) ≡ WIDTH };
}
