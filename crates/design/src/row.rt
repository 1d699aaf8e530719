ghost use Rattle.std.specs.Prelude.{◌≡◌};

/// One row of a list: a unit with its stratum, its cluster and its size.
#[derive(Clone, Copy, PartialEq, Eq, Debug)]
pub struct Row {
    pub stratum: u16,
    pub cluster: u16,
    pub size: u32,
}

impl Row {
    /// A row by its stratum, its cluster and its size.
    pub fn new(stratum: u16, cluster: u16, size: u32) -> Row
        ensures { result ≡ record { stratum = stratum; cluster = cluster; size = size } }
    {
        Row {
            stratum,
            cluster,
            size,
        }
    }

    /// A row with this size, in the one stratum and cluster of a plain list.
    pub fn sized(size: u32) -> Row
        ensures { result ≡ record { stratum = 0; cluster = 0; size = size } }
    {
        Row::new(0, 0, size)
    }
}
