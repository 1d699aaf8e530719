use design::row::Row;

/// A farm by its name and the size of its land.
#[derive(Clone, Copy)]
pub struct Farm {
    pub name: &'static str,
    pub hectares: u32,
}

/// The farms of the county, from north to south.
pub const FARMS: [Farm; 10] = [
    Farm {
        name: "Alder Fold",
        hectares: 38,
    },
    Farm {
        name: "Birch Lea",
        hectares: 112,
    },
    Farm {
        name: "Cold Brook",
        hectares: 64,
    },
    Farm {
        name: "Dunmore",
        hectares: 205,
    },
    Farm {
        name: "East Mill",
        hectares: 21,
    },
    Farm {
        name: "Fern Hollow",
        hectares: 90,
    },
    Farm {
        name: "Grange End",
        hectares: 147,
    },
    Farm {
        name: "Heron Marsh",
        hectares: 55,
    },
    Farm {
        name: "Ivy Cross",
        hectares: 176,
    },
    Farm {
        name: "Juniper Hill",
        hectares: 92,
    },
];

/// The list that a design takes: one row for each farm, by hectares.
pub fn rows() -> [Row; 10] {
    FARMS.map(|farm| Row::sized(farm.hectares))
}
