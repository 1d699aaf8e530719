//! A design that runs on the parts of a list, one after another: what the layers over any design share.
#![tactic(auto)]

use design::design::Design;
use table::PartTable;

mod calls;
pub mod kind;
mod moving;
pub mod table;
mod trying;

/// A design, and the list on whose chosen parts it runs in turn. The promises of ways, step and share hold of a series that is intact,
/// as `start` leaves it and `step` keeps it; code that changes the fields directly loses them, so a layer keeps its series private.
/// That is no invariant of the type, as a series whose parts were tried and that has not started is not intact.
#[derive(Drop)]
pub struct Series<D: Design> {
    pub below: D,
    pub table: PartTable,
}
