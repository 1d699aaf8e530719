ghost use Rattle.std.specs.Prelude.{◌≡◌, ◌≤◌, length};
ghost use Rattle.design.specs.Faults.{Answers};
ghost use Rattle.parts.specs.Orders.{fall_refusal};
ghost use Rattle.series.specs.Kinds.{alike, lower, place};

use design::check::refuse_at;
use design::fault::{Fault, Reason};
use design::row::Row;

/// What makes neighbouring rows one part of a list.
#[derive(Clone, Copy, PartialEq, Eq, Debug)]
pub enum PartKind {
    Stratum,
    Cluster,
}

impl PartKind {
    // What is the same in all rows of a part, and falls nowhere in a list.
    fn place(self, row: Row) -> (u16, u16)
        ensures { result ≡ place self row }
    {
        match self {
            PartKind::Stratum => (row.stratum, 0),
            PartKind::Cluster => (row.stratum, row.cluster),
        }
    }

    // Whether the rows q and r belong to one part.
    pub(crate) fn joins(self, q: Row, r: Row) -> bool
        ensures { result ≡ alike self q r }
    {
        self.place(q) == self.place(r)
    }

    // Whether the row r is lower than q.
    fn falls(self, q: Row, r: Row) -> bool
        ensures { result ≡ lower self q r }
    {
        self.place(r) < self.place(q)
    }

    // Refuses the first row that is lower than the row before it.
    pub(crate) fn check_order(self, list: &[Row]) -> Result<(), Fault>
        requires { length list.now ≤ 1024 }
        ensures { Answers (fall_refusal (lower self) list.now) (λ _. Unit {0}) result }
    {
        let fall = (1..list.len()).find(|i| self.falls(list[*i - 1], list[*i]));
        refuse_at(fall, Reason::OutOfOrder)
    }
}
