ghost use Rattle.std.specs.Prelude.{◌≡◌, [], IfOk};
ghost use Rattle.frame_file.specs.Written.{no_header};

use bounded::BoundedVec;
use design::limits::{MOST_ROWS, MOST_TAKES};
use design::row::Row;
use std::alloc::{AllocError, Global};
use totals::table::Cell;

/// The largest sample size, number of units for a cluster, and take.
pub const LARGEST_SAMPLE: u32 = 1024;

/// The largest size of a unit.
pub const LARGEST_SIZE: u32 = 10_000;

/// The largest amount of money, either way.
pub const LARGEST_AMOUNT: u32 = 1_000_000;

/// The first line of a frame file: the sample size, how many units are taken in each cluster, and the seed of the generator.
#[derive(Clone, Copy, PartialEq, Eq, Debug)]
pub struct Header {
    pub n: u32,
    pub m: u32,
    pub seed: u32,
}

/// A unit of a frame: its row in the list, its amount of money, and its cell of the table.
#[derive(Clone, Copy, PartialEq, Eq, Debug)]
pub struct FrameUnit {
    pub row: Row,
    pub money: i32,
    pub cell: Cell,
}

/// What a frame file says: its header, the take of each stratum, and its units. There is room for as many as a file may have.
#[derive(Drop)]
pub struct Frame {
    pub header: Header,
    pub takes: BoundedVec<u32, MOST_TAKES>,
    pub units: BoundedVec<FrameUnit, MOST_ROWS>,
}

impl Frame {
    /// A frame of which nothing is read yet.
    pub fn new(heap: Global) -> Result<Frame, AllocError>
        ensures { IfOk result (λ frame. (frame.header ≡ no_header) × (frame.takes ≡ []) × (frame.units ≡ [])) }
    {
        let takes = BoundedVec::new(heap)?;
        let units = BoundedVec::new(heap)?;
        Ok(Frame {
            header: Header {
                n: 0,
                m: 0,
                seed: 0,
            },
            takes,
            units,
        })
    }
}
