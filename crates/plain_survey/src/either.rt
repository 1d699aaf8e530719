/// A request for a report into a total of the first of two ledgers, or of the second.
#[derive(Drop)]
pub enum Either<P, Q> {
    First(P),
    Second(Q),
}
