ghost use Rattle.std.specs.Prelude.{◌≡◌, ◌≤◌, [], length, IfOk, OnErr, ◌==◌};
ghost use Rattle.design.specs.Faults.{Answers};
ghost use Rattle.layers.specs.Stratified.{allot_refusal, total_take};

use bounded::BoundedVec;
use design::fault::{Fault, Reason};
use design::limits::MOST_TAKES;
use std::alloc::{AllocError, Global};

/// A table of takes: the sample size of each stratum, in order.
#[derive(Drop)]
pub struct Takes {
    items: BoundedVec<u32, MOST_TAKES>,
    // Repeated here, as who holds a BoundedVec sees its items only, and not its invariant.
    ghost few: { length items ≤ 64 },
}

// Refuses a table with no takes or too many, and one with a take of 0.
fn check_takes(takes: &[u32]) -> Result<(), Fault>
    ensures { Answers (allot_refusal takes.now) (λ _. Unit {0}) result }
{
    if takes.is_empty() || takes.len() > MOST_TAKES {
        return Err(Fault::of(Reason::TakesOutOfRange));
    }
    if takes.contains(&0) {
        return Err(Fault::of(Reason::TakeZero));
    }
    Ok(())
}

// The sum of the takes.
fn total_of(takes: &[u32]) -> u64
    requires { length takes.now ≤ 64 }
    ensures { result ≡ total_take takes.now }
{
    takes.iter().map(|take| u64::from(*take)).sum()
}

impl Takes {
    /// No takes, and room for every table that is accepted.
    pub fn new(heap: Global) -> Result<Self, AllocError>
        ensures { IfOk result (λ t. t.items ≡ []) }
    {
        let items = BoundedVec::new(heap)?;
        Ok(Takes { items })
    }

    /// Sets the takes; refused, nothing changes.
    pub fn set(&mut self, takes: &[u32]) -> Result<(), Fault>
        ensures answers { Answers (allot_refusal takes.now) (λ _. self.new.items ≡ takes.now) result }
        ensures refused { OnErr result (self.new ≡ self.old) }
    {
        check_takes(takes)?;
        self.items.copy_from(takes);
        Ok(())
    }

    /// Whether no takes are set.
    pub fn is_empty(&self) -> bool
        ensures { result ≡ (length self.now.items == 0) }
    {
        self.items.as_slice().is_empty()
    }

    /// The takes, in the order of the strata.
    pub fn as_slice(&self) -> &[u32]
        ensures { result.now ≡ self.now.items }
    {
        self.items.as_slice()
    }

    /// The sum of the takes.
    pub fn total(&self) -> u64
        ensures { result ≡ total_take self.now.items }
    {
        total_of(self.items.as_slice())
    }
}
