//! Where the tasks of a server run.

/// Each in a thread beside its connection's worker, which is kept for all of that worker's tasks.
#[derive(Clone, Copy, Debug)]
pub struct InThread;

/// All in the caller's thread, where so many connections at a time are taken up turn by turn.
#[derive(Clone, Copy, Debug)]
pub struct InSeats {
    pub(crate) seats: usize,
}

/// In several threads, in each of which so many connections at a time are taken up turn by turn.
#[derive(Drop)]
pub struct InTables<G> {
    pub(crate) seats: usize,
    pub(crate) engine: G,
}
