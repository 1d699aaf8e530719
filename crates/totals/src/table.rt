ghost use Rattle.std.specs.Prelude.{◌≡◌, ◌*◌, ◌<◌, ◌≤◌, length};
ghost use Rattle.std.proofs.Common.{rules, lit≤};
ghost use Rattle.std.proofs.lemmas.Grind.{common_steps};
ghost use Rattle.totals.specs.Kinds.{cell_lawful, cell_row};
ghost use Rattle.totals.specs.Rows.{Within};
ghost use Rattle.totals.specs.Totals.{IsNew};

use crate::additions::Additions;
use crate::total::Total;
use design::fault::Fault;

/// The cells of a table: two rows of three.
pub const CELLS: usize = 6;

/// A cell of a table by its number, which is lawful below 6: the first row has 0 to 2, the second 3 to 5.
#[derive(Clone, Copy, PartialEq, Eq, Debug)]
pub struct Cell {
    pub at: u8,
}

/// A total over the cells of a table: an entry for each, the weights of the readings there.
#[derive(Drop)]
pub struct Table {
    cells: [i64; CELLS],
    additions: Additions,
    ghost six: { length cells ≡ 6 },
    ghost bounded: { Within (additions.count * 1000000000) cells },
}

impl Table {
    /// All cells 0, with no additions.
    pub fn new() -> Table
        ensures { IsNew ⟦<Table as Total>⟧ result }
    {
        Table {
            cells: [0; CELLS],
            additions: Additions::new(),
        }
    }
}

impl Default for Table {
    ghost is_default = { IsNew ⟦<Table as Total>⟧ };

    fn default() -> Table {
        Table::new()
    }
}

impl Total for Table {
    type Reading = Cell;

    const REACH: u32 = 1;

    ghost REACH = { 1 };

    const WIDTH: usize = CELLS;

    ghost WIDTH = { 6 };

    ghost is_lawful = { λ cell. cell_lawful cell.at };

    ghost row = { λ cell. cell_row cell.at };

    ghost entries = { λ total. total.cells };

    ghost additions = { λ total. total.additions.count };

    fn lawful(cell: &Cell) -> bool {
        usize::from(cell.at) < CELLS
    }

    fn clear(&mut self) {
        self.cells = [0; CELLS];
        self.additions = Additions::new();
    }

    fn add(&mut self, w: u32, cell: &Cell) -> Result<(), Fault> {
        self.additions.admit(w, Self::lawful(cell))?;
        self.cells[usize::from(cell.at)] += i64::from(w);
        Ok(())
    }

    fn entry(&self, i: usize) -> Option<i64> {
        self.cells.get(i).copied()
    }

    ghost small = { lit≤ tt };

    ghost some = { lit≤ tt };

    ghost rows = { Prim.search (rules, common_steps) };

    ghost wide = { λ total. total.six };
}
