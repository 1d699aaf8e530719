use design::row::Row;

/// A parish, by its number.
#[derive(Clone, Copy)]
pub enum Parish {
    Ashby = 1,
    Brook = 2,
    Calder = 3,
}

/// A field: its parish, the number of its hamlet there, and the size of its land.
#[derive(Clone, Copy)]
pub struct Field {
    pub parish: Parish,
    pub hamlet: u16,
    pub hectares: u32,
}

impl Parish {
    /// The name that is printed.
    pub fn name(self) -> &'static str {
        match self {
            Parish::Ashby => "Ashby",
            Parish::Brook => "Brook",
            Parish::Calder => "Calder",
        }
    }
}

impl Field {
    // Parishes are the strata, and hamlets the clusters.
    fn row(self) -> Row {
        Row::new(self.parish as u16, self.hamlet, self.hectares)
    }
}

/// The fields, parish by parish, and hamlet by hamlet.
pub const FIELDS: [Field; 12] = [
    Field {
        parish: Parish::Ashby,
        hamlet: 1,
        hectares: 24,
    },
    Field {
        parish: Parish::Ashby,
        hamlet: 1,
        hectares: 31,
    },
    Field {
        parish: Parish::Ashby,
        hamlet: 2,
        hectares: 18,
    },
    Field {
        parish: Parish::Ashby,
        hamlet: 2,
        hectares: 40,
    },
    Field {
        parish: Parish::Ashby,
        hamlet: 2,
        hectares: 27,
    },
    Field {
        parish: Parish::Brook,
        hamlet: 1,
        hectares: 33,
    },
    Field {
        parish: Parish::Brook,
        hamlet: 1,
        hectares: 52,
    },
    Field {
        parish: Parish::Brook,
        hamlet: 2,
        hectares: 45,
    },
    Field {
        parish: Parish::Calder,
        hamlet: 1,
        hectares: 12,
    },
    Field {
        parish: Parish::Calder,
        hamlet: 1,
        hectares: 38,
    },
    Field {
        parish: Parish::Calder,
        hamlet: 2,
        hectares: 29,
    },
    Field {
        parish: Parish::Calder,
        hamlet: 2,
        hectares: 36,
    },
];

/// The list that a design takes: one row for each field, by hectares.
pub fn rows() -> [Row; 12] {
    FIELDS.map(|field| field.row())
}
