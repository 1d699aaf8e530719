ghost use Rattle.std.specs.Prelude.{◌≡◌, ◌-◌, ◌<◌, ◌≤◌, false, length};
ghost use Rattle.parts.specs.Running.{NextChosen, NoneFrom, so_far};
ghost use Rattle.design.specs.Plans.{nothing};
ghost use Rattle.series.specs.Of.{IsReady, IsUnderway, SameList, plans, standing, tables_of};
ghost use Rattle.series.specs.Moving.{CanEnter, ChoosesTaken, ComesIntact, ComesUnderway, Finished, run_on, with_chosen};
ghost use Rattle.series.specs.Noting.{NotesTaken};

use crate::Series;
use bounded::BoundedVec;
use design::design::Design;
use design::fault::Fault;
use design::limits::MOST_ROWS;
use std::ops::Range;

// Notes which units of a finished run are taken, in these places of the flags.
fn note_taken<D: Design>(design: &D, flags: &mut BoundedVec<bool, MOST_ROWS>, places: Range<usize>)
    requires forward { places.start ≤ places.end }
    requires within { places.end ≤ length flags.old }
    requires few { length flags.old ≤ 1024 }
    ensures len { length flags.new ≡ length flags.old }
    ensures noted { NotesTaken D.Design design.now places.start places.end flags.old flags.new }
{
    flags.write(places, |k| design.taken(k as u32).unwrap_or(false));
}

// The first flag from `from` on that is set, or the number of flags.
fn next_set(flags: &[bool], from: usize) -> usize
    requires { from ≤ length flags.now }
    ensures { NextChosen flags.now from result }
{
    flags[from..]
        .iter()
        .position(|set| *set)
        .map_or(flags.len(), |i| from + i)
}

impl<D: Design> Series<D> {
    // Begins the design on the first chosen part from the part `from` on, if there is one.
    fn enter(&mut self, from: usize) -> Result<(), Fault>
        requires { from ≤ length (tables_of self.old).chosen }
        ensures forward { from ≤ self.new.table.stage }
        ensures same { SameList (tables_of self.old) (tables_of self.new) }
        ensures settings { plans D.Design self.new ≡ plans D.Design self.old }
        ensures entered { CanEnter D.Design self.old from → ComesUnderway D.Design self.new result (run_on D.Design self.old from (so_far (tables_of self.old))) }
    {
        let j = next_set(self.table.chosen.as_slice(), from);
        self.table.stage = j;
        self.table.moved = false;
        if j < self.table.count() {
            self.below.begin(self.table.part(j), self.table.sample(j))
        } else {
            Ok(())
        }
    }

    // Notes which units of the finished present part are taken, and goes on to the next chosen part.
    fn pass_on(&mut self) -> Result<(), Fault>
        requires { (tables_of self.old).stage < length (tables_of self.old).chosen }
        ensures forward { self.old.table.stage < self.new.table.stage }
        ensures same { SameList (tables_of self.old) (tables_of self.new) }
        ensures settings { plans D.Design self.new ≡ plans D.Design self.old }
        ensures passed { IsUnderway D.Design self.old → Finished D.Design self.old → ComesUnderway D.Design self.new result (standing D.Design self.old) }
    {
        let j = self.table.stage;
        let rows = self.table.rows_of(j);
        note_taken(&self.below, &mut self.table.taken, rows);
        self.enter(j + 1)
    }

    // Leaves finished parts, until the present one has ways or all are behind.
    pub(crate) fn settle(&mut self) -> Result<(), Fault>
        ensures same { SameList (tables_of self.old) (tables_of self.new) }
        ensures settings { plans D.Design self.new ≡ plans D.Design self.old }
        ensures settled { IsUnderway D.Design self.old → ComesIntact D.Design self.new result (standing D.Design self.old) }
    {
        while self.table.has_part() && self.below.ways() == 0 {
            self.pass_on()?;
        }
        Ok(())
    }

    /// Chooses the parts that the finished run of this design has taken; only the choice changes.
    pub fn choose<A: Design>(&mut self, design: &A)
        ensures chosen { ChoosesTaken A.Design design.now self.old self.new }
        ensures same { tables_of self.new ≡ with_chosen (tables_of self.old) (tables_of self.new).chosen }
        ensures below { self.new.below ≡ self.old.below }
    {
        let count = self.table.chosen.len();
        note_taken(design, &mut self.table.chosen, 0..count);
    }

    // Comes to the first chosen part. The design has just begun on the first of all parts, and is not begun again on that one.
    fn enter_first(&mut self) -> Result<(), Fault>
        ensures same { SameList (tables_of self.old) (tables_of self.new) }
        ensures settings { plans D.Design self.new ≡ plans D.Design self.old }
        ensures entered { IsReady D.Design self.old → NoneFrom (tables_of self.old) 0 → ComesUnderway D.Design self.new result (run_on D.Design self.old 0 (so_far (tables_of self.old))) }
    {
        self.table.stage = 0;
        self.table.moved = false;
        if self.table.is_chosen(0) {
            Ok(())
        } else {
            self.enter(0)
        }
    }

    /// Starts a run on the chosen parts of a list that is ready: every part was tried and accepted, and the design has not moved since.
    pub fn start(&mut self) -> Result<(), Fault>
        ensures same { SameList (tables_of self.old) (tables_of self.new) }
        ensures settings { plans D.Design self.new ≡ plans D.Design self.old }
        ensures started { IsReady D.Design self.old → ComesIntact D.Design self.new result (run_on D.Design self.old 0 nothing) }
    {
        let units = self.table.units();
        self.table.taken.fill(units, false);
        self.enter_first()?;
        self.settle()
    }
}
