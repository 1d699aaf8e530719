use design::fault::Fault;
use design::row::Row;

/// A call of a survey; a Q asks for a report, with readings of any kind, into one of several totals.
#[derive(Drop)]
pub enum Call<'a, Q> {
    Start(&'a [Row], u32),
    Draw,
    Taken(u32),
    Share(u32),
    Report(Q),
    Stop,
}

/// What a call answers.
#[derive(Clone, Copy, PartialEq, Eq, Debug)]
pub enum Answer {
    Started(Result<(), Fault>),
    Drawn(Result<(), Fault>),
    Taken(Result<bool, Fault>),
    Shared(Result<(u64, u64), Fault>),
    Reported(Result<(u32, u32), Fault>),
    Stopped,
}
