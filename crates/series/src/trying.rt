ghost use Rattle.std.specs.Prelude.{◌≡◌, ◌+◌, ◌-◌, ◌<◌, ◌≤◌, length, Ok};
ghost use Rattle.design.specs.Faults.{Answers};
ghost use Rattle.parts.specs.Running.{all_parts, part_at};
ghost use Rattle.parts.specs.Series.{part_refusal, plan_for};
ghost use Rattle.parts.specs.Trying.{Tried, with_shares};
ghost use Rattle.series.specs.Of.{IsReady, plans, tables_of};
ghost use Rattle.series.specs.Noting.{NotesShares};

use crate::Series;
use bounded::BoundedVec;
use design::design::Design;
use design::fault::Fault;
use design::fraction::Fraction;
use design::limits::MOST_ROWS;
use std::ops::Range;

// Notes the shares of these rows, on which the design below has just begun.
fn note_shares<D: Design>(
    below: &D,
    shares: &mut BoundedVec<Fraction, MOST_ROWS>,
    rows: Range<usize>,
)
    requires forward { rows.start ≤ rows.end }
    requires within { rows.end ≤ length shares.old }
    requires few { length shares.old ≤ 1024 }
    ensures len { length shares.new ≡ length shares.old }
    ensures noted { NotesShares D.Design below.now rows.start rows.end shares.old shares.new }
{
    shares.write(rows, |k| below.share(k as u32).unwrap_or((0, 0)));
}

impl<D: Design> Series<D> {
    // Begins the design on part j, and notes its prescribed shares, or passes its fault upward.
    fn try_part(&mut self, j: usize) -> Result<(), Fault>
        requires { j < length (tables_of self.old).chosen }
        ensures tried { Tried (plan_for (plans D.Design self.old) (part_at (tables_of self.old) j)) (tables_of self.old) j (tables_of self.new).shares (D.Design.tree self.new.below) result }
        ensures same { tables_of self.new ≡ with_shares (tables_of self.old) (tables_of self.new).shares }
        ensures settings { plans D.Design self.new ≡ plans D.Design self.old }
    {
        let first = self.table.first_row(j);
        self.below
            .begin(self.table.part(j), self.table.sample(j))
            .map_err(|f| f.passed_up(first + f.row))?;
        let rows = self.table.rows_of(j);
        note_shares(&self.below, &mut self.table.shares, rows);
        Ok(())
    }

    /// Tries the design on every part, and notes the prescribed shares, or passes the first fault upward. From the last part to the first,
    /// so that the design has then just begun on the first, and `start` need not begin it again.
    pub fn try_parts(&mut self) -> Result<(), Fault>
        ensures tried { Answers (part_refusal (plans D.Design self.old) (all_parts (tables_of self.old))) (λ _. IsReady D.Design self.new) result }
        ensures same { tables_of self.new ≡ with_shares (tables_of self.old) (tables_of self.new).shares }
        ensures settings { plans D.Design self.new ≡ plans D.Design self.old }
    {
        let mut answer = Ok(());
        // By number, as parts are cut out of the list when they are asked for, and not stored.
        for j in (0..self.table.count()).rev() {
            answer = self.try_part(j).and(answer);
        }
        answer
    }
}
