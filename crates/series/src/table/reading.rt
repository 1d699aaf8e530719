ghost use Rattle.std.specs.Prelude.{◌≡◌, ℕ, ◌+◌, ◌<◌, ◌≤◌, T, ◌↔◌, length, replicate, MatchBool, ◌==◌};
ghost use Rattle.parts.specs.Bounds.{Rising};
ghost use Rattle.parts.specs.Running.{all_parts, first_row_of, has_present, is_chosen, part_at, sample_of, share_at};
ghost use Rattle.parts.specs.Seats.{Seated};
ghost use Rattle.series.specs.Tables.{tables, asked};

use super::PartTable;
use design::fraction::Fraction;
use design::row::Row;
use std::ops::Range;

// Up to so many bounds are gone through in order, which is then faster than to halve them.
const FEW_BOUNDS: usize = 17;

// The part in which the row k lies, where `bounds` are the first rows of the parts, and at last the row past the list: the part before
// the first that starts past the row, or else the last part.
fn find_in_order(bounds: &[u32], k: u32) -> usize
    ensures { (e : ℕ) → Rising bounds.now e → k < e → Seated bounds.now k result }
{
    let [_, later @ .., _] = bounds else {
        return 0;
    };
    later
        .iter()
        .position(|first| k < *first)
        .unwrap_or(later.len())
}

// The same part, found by halving.
fn find_by_halves(bounds: &[u32], k: u32) -> usize
    ensures { (e : ℕ) → Rising bounds.now e → k < e → Seated bounds.now k result }
{
    bounds
        .partition_point(|first| *first <= k)
        .saturating_sub(1)
}

// The same part, found as is faster for so many bounds.
fn find_part(bounds: &[u32], k: u32) -> usize
    ensures { (e : ℕ) → Rising bounds.now e → k < e → Seated bounds.now k result }
{
    if bounds.len() <= FEW_BOUNDS {
        find_in_order(bounds, k)
    } else {
        find_by_halves(bounds, k)
    }
}

// Past the end these read 0 (or false), as the definitions do, so that no clause needs a premise.
impl PartTable {
    /// The number of units.
    pub fn units(&self) -> usize
        ensures { result ≡ length (tables self.now).rows }
    {
        self.rows.len()
    }

    /// The number of parts.
    pub fn count(&self) -> usize
        ensures { result ≡ length (all_parts (tables self.now)) }
    {
        self.chosen.len()
    }

    /// The first row of part j; past the last part, the row past the list; and 0 past that.
    pub fn first_row(&self, j: usize) -> u32
        ensures { result ≡ first_row_of (tables self.now) j }
    {
        self.bounds.as_slice().get(j).copied().unwrap_or(0)
    }

    // The numbers of the rows of part j: from its first row up to, and not including, the first row of the next.
    pub(crate) fn rows_of(&self, j: usize) -> Range<usize>
        requires { j < length (tables self.now).chosen }
        ensures start { result.start ≡ first_row_of (tables self.now) j }
        ensures end { result.end ≡ first_row_of (tables self.now) (j + 1) }
        ensures forward { result.start ≤ result.end }
        ensures within { result.end ≤ length (tables self.now).rows }
    {
        self.first_row(j) as usize..self.first_row(j + 1) as usize
    }

    /// The rows of part j, and none past the last part.
    pub fn part(&self, j: usize) -> &[Row]
        ensures { result.now ≡ (part_at (tables self.now) j).rows }
    {
        if j < self.count() {
            &self.rows.as_slice()[self.rows_of(j)]
        } else {
            &[]
        }
    }

    /// The sample size of part j, and 0 past the last part.
    pub fn sample(&self, j: usize) -> u32
        ensures { result ≡ sample_of (tables self.now) j }
    {
        self.samples.as_slice().get(j).copied().unwrap_or(0)
    }

    /// The part of the unit k, and an open answer past the last unit.
    pub fn part_of(&self, k: u32) -> usize
        ensures { k < length (tables self.now).rows → Seated (tables self.now).bounds k result }
    {
        find_part(self.bounds.as_slice(), k)
    }

    /// Whether the unit k lies in part j.
    pub fn lies_in(&self, k: u32, j: usize) -> bool
        ensures { T result ↔ Seated (tables self.now).bounds k j }
    {
        j < self.count() && self.first_row(j) <= k && k < self.first_row(j + 1)
    }

    /// The prescribed share of the unit k in its part, and 0 of 0 past the last unit.
    pub fn prescribed(&self, k: usize) -> Fraction
        ensures { result ≡ share_at (tables self.now) k }
    {
        self.shares.as_slice().get(k).copied().unwrap_or((0, 0))
    }

    /// Whether part j is chosen; past the last part, none is.
    pub fn is_chosen(&self, j: usize) -> bool
        ensures { result ≡ is_chosen (tables self.now) j }
    {
        self.chosen.as_slice().get(j).copied().unwrap_or(false)
    }

    /// Whether there is a present part.
    pub fn has_part(&self) -> bool
        ensures { result ≡ has_present (tables self.now) }
    {
        self.stage < self.count()
    }

    /// Gives each part its sample size, in order, and answers yes; where they are not as many as the parts, answers no and changes
    /// nothing.
    pub fn ask(&mut self, samples: &[u32]) -> bool
        ensures fits { result ≡ (length (all_parts (tables self.old)) == length samples.now) }
        ensures asked { MatchBool result (tables self.new ≡ asked (tables self.old) samples.now) (tables self.new ≡ tables self.old) }
    {
        let fits = self.count() == samples.len();
        if fits {
            self.samples.copy_from(samples);
        }
        fits
    }

    /// Gives each part the same sample size.
    pub fn ask_each(&mut self, sample: u32)
        ensures { tables self.new ≡ asked (tables self.old) (replicate (length (all_parts (tables self.old))) sample) }
    {
        let count = self.count();
        self.samples.fill(count, sample);
    }
}
