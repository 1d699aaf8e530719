ghost use Rattle.std.specs.Prelude.{◌≡◌, ◌-◌, ◌^◌, ◌<◌, ◌≤◌, length, Some, IfSome};
ghost use Rattle.design.specs.Faults.{Answers, number_of, refused_at};
ghost use Rattle.design.specs.Lists.{total, count_refusal, size_refusal, total_refusal, list_refusal};

use crate::fault::{Fault, Reason};
use crate::limits::{LARGEST_TOTAL, MOST_ROWS};
use crate::row::Row;

/// Refuses the row that was found at fault, if one was. A row past the largest number of 32 bits is told as that number.
pub fn refuse_at(row: Option<usize>, reason: Reason) -> Result<(), Fault>
    ensures fits { IfSome row (λ k. k < 2 ^ 32) → Answers (refused_at row (number_of reason)) (λ _. Unit {0}) result }
    ensures past { IfSome row (λ k. 2 ^ 32 ≤ k → Answers (refused_at (Some (2 ^ 32 - 1)) (number_of reason)) (λ _. Unit {0}) result) }
{
    match row {
        Some(k) => Err(Fault::at(reason, u32::try_from(k).unwrap_or(u32::MAX))),
        None => Ok(()),
    }
}

/// Refuses an empty list and one of too many rows.
pub fn check_count(list: &[Row]) -> Result<(), Fault>
    ensures { Answers (count_refusal list.now) (λ _. Unit {0}) result }
{
    if list.is_empty() {
        return Err(Fault::of(Reason::EmptyList));
    }
    if list.len() > MOST_ROWS {
        return Err(Fault::of(Reason::TooManyRows));
    }
    Ok(())
}

// Refuses the first row of size 0.
fn check_sizes(list: &[Row]) -> Result<(), Fault>
    requires { length list.now ≤ 1024 }
    ensures { Answers (size_refusal list.now) (λ _. Unit {0}) result }
{
    refuse_at(list.iter().position(|row| row.size == 0), Reason::SizeZero)
}

// The total of the sizes, or a fault at the row at which it passes the largest.
fn check_total(list: &[Row]) -> Result<u32, Fault>
    requires { length list.now ≤ 1024 }
    ensures { Answers (total_refusal list.now) (λ t. t ≡ total list.now) result }
{
    let mut sum: u32 = 0;
    for (i, row) in list.iter().enumerate() {
        if row.size > LARGEST_TOTAL - sum {
            return Err(Fault::at(Reason::SizesTooLarge, i as u32));
        }
        sum += row.size;
    }
    Ok(sum)
}

/// Checks the rows and the sample size of a list, and answers the total of its sizes.
pub fn check_list(list: &[Row], n: u32) -> Result<u32, Fault>
    ensures { Answers (list_refusal list.now n) (λ t. t ≡ total list.now) result }
{
    check_count(list)?;
    if n == 0 {
        return Err(Fault::of(Reason::NoSample));
    }
    check_sizes(list)?;
    check_total(list)
}
