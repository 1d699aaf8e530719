ghost use Rattle.std.specs.Prelude.{◌≡◌, ◌<◌, length, IfOk};
ghost use Rattle.design.specs.Design.{Shared, Stepped, ways_of};
ghost use Rattle.parts.specs.Seats.{Seated};
ghost use Rattle.series.specs.Of.{IsIntact, IsNew, SameList, plans, standing, tables_of};
ghost use Rattle.series.specs.Calls.{RefusedElsewhere, noted_share};

use crate::Series;
use crate::table::PartTable;
use design::design::Design;
use design::fault::{Fault, Reason};
use design::fraction::Fraction;
use std::alloc::{AllocError, Global};

impl<D: Design> Series<D> {
    /// A series over this design, with no list, and room for every list that the design accepts.
    pub fn new(heap: Global, below: D) -> Result<Self, AllocError>
    where
        D: Drop,
        ensures { IfOk result (IsNew below) }
    {
        let table = PartTable::new(heap)?;
        Ok(Series { below, table })
    }

    /// The ways of the next throw, and 0, as a design's, where the run has come to its outcome.
    pub fn ways(&self) -> u32
        ensures { IsIntact D.Design self.now → result ≡ ways_of (standing D.Design self.now) }
    {
        if self.table.has_part() {
            self.below.ways()
        } else {
            0
        }
    }

    /// Goes on to the subtree of the throw d.
    pub fn step(&mut self, d: u32) -> Result<(), Fault>
        ensures stepped { IsIntact D.Design self.old → Stepped (standing D.Design self.old) d result (standing D.Design self.new) }
        ensures intact { IsIntact D.Design self.old → IsIntact D.Design self.new }
        ensures same { SameList (tables_of self.old) (tables_of self.new) }
        ensures settings { plans D.Design self.new ≡ plans D.Design self.old }
    {
        if !self.table.has_part() {
            return Err(Fault::of(Reason::NoWays));
        }
        self.below.step(d)?;
        self.table.moved = true;
        self.settle()
    }

    // The share of the unit k of part j, where the design is not in the midst of that part: all or nothing behind, and else what is prescribed
    // if the part is chosen.
    fn share_noted(&self, k: usize, j: usize) -> Fraction
        requires listed { k < length (tables_of self.now).rows }
        requires part { j < length (tables_of self.now).chosen }
        ensures { result ≡ noted_share (tables_of self.now) k j }
    {
        let (prescribed, denominator) = self.table.shares.as_slice()[k];
        let numerator = if j < self.table.stage {
            if self.table.taken.as_slice()[k] {
                denominator
            } else {
                0
            }
        } else if self.table.chosen.as_slice()[j] {
            prescribed
        } else {
            0
        };
        (numerator, denominator)
    }

    // The share of the unit k, which is known to lie in part j.
    fn share_seated(&self, k: u32, j: usize) -> Result<Fraction, Fault>
        requires listed { k < length (tables_of self.now).rows }
        requires seated { Seated (tables_of self.now).bounds k j }
        ensures { IsIntact D.Design self.now → Shared (standing D.Design self.now) k result }
    {
        if j == self.table.stage && self.table.moved {
            self.below.share(k - self.table.bounds.as_slice()[j])
        } else {
            Ok(self.share_noted(k as usize, j))
        }
    }

    /// The inclusion share of the unit k in the present tree, where it lies in part j; anywhere else, part j has no such unit.
    pub fn share_in(&self, k: u32, j: usize) -> Result<(u64, u64), Fault>
        ensures seated { IsIntact D.Design self.now → Seated (tables_of self.now).bounds k j → Shared (standing D.Design self.now) k result }
        ensures elsewhere { RefusedElsewhere (tables_of self.now) k j result }
    {
        if !self.table.lies_in(k, j) {
            return Err(Fault::of(Reason::NoSuchUnit));
        }
        self.share_seated(k, j)
    }

    /// The inclusion share of the unit k in the present tree.
    // Inlined, as an answer that comes back through memory would cost half as much again.
    #[inline(always)]
    pub fn share(&self, k: u32) -> Result<(u64, u64), Fault>
        ensures { IsIntact D.Design self.now → Shared (standing D.Design self.now) k result }
    {
        // A unit of the list lies in its part, which is not tested again.
        if k as usize >= self.table.units() {
            return Err(Fault::of(Reason::NoSuchUnit));
        }
        self.share_seated(k, self.table.part_of(k))
    }
}
