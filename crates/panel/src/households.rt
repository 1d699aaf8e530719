use design::row::Row;
use totals::table::Cell;

#[derive(Clone, Copy)]
pub enum Region {
    North,
    South,
}

#[derive(Clone, Copy)]
pub enum Dwelling {
    House,
    Flat,
    Farm,
}

/// A household of so many persons, and what it answers when it is asked: its yearly spending, and where it lives.
#[derive(Clone, Copy)]
pub struct Household {
    pub name: &'static str,
    pub region: Region,
    pub persons: u32,
    pub spending: i32,
    pub dwelling: Dwelling,
}

impl Region {
    pub fn name(self) -> &'static str {
        match self {
            Region::North => "north",
            Region::South => "south",
        }
    }

    // The number of the region's stratum.
    fn stratum(self) -> u16 {
        match self {
            Region::North => 1,
            Region::South => 2,
        }
    }
}

impl Household {
    /// Its cell of the table: the first row is the north, the second the south, and each has houses, flats and farms.
    pub fn cell(&self) -> Cell {
        let first = match self.region {
            Region::North => 0,
            Region::South => 3,
        };
        let at = match self.dwelling {
            Dwelling::House => first,
            Dwelling::Flat => first + 1,
            Dwelling::Farm => first + 2,
        };
        Cell { at }
    }
}

/// The households of both regions, the north first.
pub const HOUSEHOLDS: [Household; 8] = [
    Household {
        name: "Abbott",
        region: Region::North,
        persons: 2,
        spending: 21_400,
        dwelling: Dwelling::Flat,
    },
    Household {
        name: "Barrow",
        region: Region::North,
        persons: 5,
        spending: 38_750,
        dwelling: Dwelling::Farm,
    },
    Household {
        name: "Conway",
        region: Region::North,
        persons: 1,
        spending: 14_200,
        dwelling: Dwelling::Flat,
    },
    Household {
        name: "Dalton",
        region: Region::North,
        persons: 4,
        spending: 31_900,
        dwelling: Dwelling::House,
    },
    Household {
        name: "Ellis",
        region: Region::South,
        persons: 3,
        spending: 26_300,
        dwelling: Dwelling::House,
    },
    Household {
        name: "Fenner",
        region: Region::South,
        persons: 6,
        spending: 44_100,
        dwelling: Dwelling::House,
    },
    Household {
        name: "Garrick",
        region: Region::South,
        persons: 2,
        spending: 18_600,
        dwelling: Dwelling::Flat,
    },
    Household {
        name: "Hobson",
        region: Region::South,
        persons: 3,
        spending: 29_050,
        dwelling: Dwelling::Farm,
    },
];

/// The frame: one row for each household, with its region as stratum and its persons as size.
pub fn frame() -> [Row; 8] {
    HOUSEHOLDS.map(|household| Row::new(household.region.stratum(), 0, household.persons))
}
