ghost use Rattle.std.specs.Prelude.{◌≡◌, ◌≤◌, false, length, set as replaced, IfOk, OnErr, slice_index};
ghost use Rattle.design.specs.Faults.{Answers};
ghost use Rattle.design.specs.Lists.{total as total_of};
ghost use Rattle.methods.specs.Holdings.{HeldShare};
ghost use Rattle.methods.specs.Plain.{goals as goals_of, goal_refusal, plain_refusal};
ghost use Rattle.plain.specs.Of.{runs, whole, held, HoldsGoals};

use super::Holdings;
use bounded::BoundedVec;
use design::check::{check_list, refuse_at};
use design::fault::{Fault, Reason};
use design::limits::MOST_ROWS;
use design::row::Row;
use std::alloc::{AllocError, Global};

// Refuses the first row whose goal is above the total.
fn check_goals(list: &[Row], n: u32, total: u32) -> Result<(), Fault>
    requires few { length list.now ≤ 1024 }
    requires total { total ≡ total_of list.now }
    ensures { Answers (goal_refusal list.now n) (λ _. Unit {0}) result }
{
    let above = |row: &Row| u64::from(n) * u64::from(row.size) > u64::from(total);
    refuse_at(list.iter().position(above), Reason::ShareAboveOne)
}

// Makes the list so long. What it holds is left to the caller, who writes all of it.
fn set_length(goals: &mut BoundedVec<u32, MOST_ROWS>, count: usize)
    requires { count ≤ 1024 }
    ensures { length goals.new ≡ count }
{
    if goals.len() != count {
        goals.fill(count, 0);
    }
}

// Notes the goal of each unit, or refuses the first row whose goal is above the total.
fn note_goals(
    list: &[Row],
    n: u32,
    total: u32,
    goals: &mut BoundedVec<u32, MOST_ROWS>,
) -> Result<(), Fault>
    requires few { length list.now ≤ 1024 }
    requires total { total ≡ total_of list.now }
    ensures answers { Answers (goal_refusal list.now n) (λ _. goals.new ≡ goals_of list.now n) result }
    ensures few { length goals.new ≤ 1024 }
{
    set_length(goals, list.len());
    check_goals(list, n, total)?;
    // None is above the total, so that each fits 32 bits. In one go, with no test of the room for each.
    goals.write(0..list.len(), |k| n * list[k].size);
    Ok(())
}

// Past the end these read 0 (or false), as the definitions do, so that no clause needs a premise.
impl Holdings {
    /// No run, and room for every list that begin accepts, so that no later call needs memory.
    pub fn new(heap: Global) -> Result<Self, AllocError>
        ensures { IfOk result (λ h. runs h ≡ false) }
    {
        let holds = BoundedVec::new(heap)?;
        Ok(Holdings { holds, total: None })
    }

    /// Checks a list as every plain design does. Accepted, each unit holds its goal; refused, there is no run.
    pub fn begin(&mut self, list: &[Row], n: u32) -> Result<(), Fault>
        ensures answers { Answers (plain_refusal list.now n) (λ _. HoldsGoals list.now n self.new) result }
        ensures ended { OnErr result (runs self.new ≡ false) }
    {
        self.total = None;
        let total = check_list(list, n)?;
        note_goals(list, n, total, &mut self.holds)?;
        self.total = Some(total);
        Ok(())
    }

    pub fn is_running(&self) -> bool
        ensures { result ≡ runs self.now }
    {
        self.total.is_some()
    }

    /// The total of the run, and 0 where none stands.
    pub fn total(&self) -> u32
        ensures { result ≡ whole self.now }
    {
        self.total.unwrap_or(0)
    }

    pub fn units(&self) -> usize
        ensures { result ≡ length (held self.now) }
    {
        self.holds.len()
    }

    /// What the unit i holds, and 0 past the last.
    pub fn get(&self, i: usize) -> u32
        ensures { result ≡ slice_index (held self.now) i }
    {
        self.holds.as_slice().get(i).copied().unwrap_or(0)
    }

    /// Leaves the unit i so much, and changes nothing past the last.
    pub fn set(&mut self, i: usize, left: u32)
        ensures held { held self.new ≡ replaced (held self.old) i left }
        ensures whole { whole self.new ≡ whole self.old }
        ensures runs { runs self.new ≡ runs self.old }
    {
        self.holds.set(i, left);
    }

    /// The share of the unit k: what it holds, over the total.
    pub fn share(&self, k: u32) -> Result<(u64, u64), Fault>
        ensures { HeldShare (runs self.now) (whole self.now) (held self.now) k result }
    {
        match (self.total, self.holds.as_slice().get(k as usize)) {
            (Some(total), Some(held)) => Ok((u64::from(*held), u64::from(total))),
            _ => Err(Fault::of(Reason::NoSuchUnit)),
        }
    }
}
