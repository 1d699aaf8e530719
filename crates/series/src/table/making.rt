ghost use Rattle.std.specs.Prelude.{◌≡◌, ◌+◌, ◌<◌, ◌≤◌, [], length, IfOk, OnErr};
ghost use Rattle.design.specs.Faults.{Answers};
ghost use Rattle.parts.specs.Parts.{bounds as bounds_of};
ghost use Rattle.series.specs.Kinds.{alike, cut_refusal};
ghost use Rattle.series.specs.Tables.{tables, newly_cut};

use super::{MOST_BOUNDS, PartTable};
use crate::kind::PartKind;
use bounded::BoundedVec;
use design::check::check_count;
use design::fault::Fault;
use design::row::Row;
use std::alloc::{AllocError, Global};

// The first row of each part, and at last the row past the list.
fn note_bounds(kind: PartKind, list: &[Row], bounds: &mut BoundedVec<u32, MOST_BOUNDS>)
    requires some { 0 < length list.now }
    requires few { length list.now ≤ 1024 }
    ensures items { bounds.new ≡ bounds_of (alike kind) list.now }
    ensures len { length bounds.new ≤ length list.now + 1 }
{
    bounds.clear();
    bounds.push(0);
    for (i, pair) in list.windows(2).enumerate() {
        if !kind.joins(pair[0], pair[1]) {
            bounds.push(i as u32 + 1);
        }
    }
    bounds.push(list.len() as u32);
}

impl PartTable {
    /// Room for every list that a design accepts, so that no later call needs memory.
    pub fn new(heap: Global) -> Result<Self, AllocError>
        ensures { IfOk result (λ t. (tables t).rows ≡ []) }
    {
        let mut bounds = BoundedVec::new(heap)?;
        bounds.push(0);
        Ok(PartTable {
            rows: BoundedVec::new(heap)?,
            shares: BoundedVec::new(heap)?,
            taken: BoundedVec::new(heap)?,
            bounds,
            samples: BoundedVec::new(heap)?,
            chosen: BoundedVec::new(heap)?,
            stage: 0,
            moved: false,
        })
    }

    // Cuts a list of 1 to 1,024 rows.
    fn load(&mut self, kind: PartKind, list: &[Row])
        requires some { 0 < length list.now }
        requires few { length list.now ≤ 1024 }
        ensures { tables self.new ≡ newly_cut (alike kind) list.now }
    {
        self.rows.copy_from(list);
        self.shares.fill(list.len(), (0, 0));
        self.taken.fill(list.len(), false);
        note_bounds(kind, list, &mut self.bounds);
        let count = self.bounds.len() - 1;
        self.samples.fill(count, 0);
        self.chosen.fill(count, true);
        self.stage = 0;
        self.moved = false;
    }

    /// Refuses an empty list, one of too many rows, and the first row that falls, and then changes nothing; else cuts the list into
    /// parts, of which all are chosen.
    pub fn cut(&mut self, kind: PartKind, list: &[Row]) -> Result<(), Fault>
        ensures answers { Answers (cut_refusal kind list.now) (λ _. tables self.new ≡ newly_cut (alike kind) list.now) result }
        ensures refused { OnErr result (self.new ≡ self.old) }
    {
        check_count(list)?;
        kind.check_order(list)?;
        self.load(kind, list);
        Ok(())
    }
}
