//! How an application's task ends.

/// How a task ended.
#[derive(Clone, Copy, Debug, PartialEq, Eq)]
pub enum EndKind {
    /// The task returned.
    Returned,
    /// The task faulted.
    Faulted,
    /// The task reached a limit of turns, or of idle turns in a row.
    Idle,
}
