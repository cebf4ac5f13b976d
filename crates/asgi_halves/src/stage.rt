//! How far an exchange has come.
use asgi_conversation::{NextStep, Outcome};
use asgi_pipes::EndKind;

/// How far an exchange has come, for its connection.
#[derive(Clone, Copy, Debug, PartialEq, Eq)]
pub enum Stage {
    /// The end of the task was not taken yet.
    Running,
    /// The end of the task was taken, and the rest of the body is read and dropped.
    Ending(EndKind),
    /// The connection is cut short, and the end of the task was not taken yet.
    Cut(Outcome),
    /// Nothing more is done, and this comes next.
    Over(NextStep),
}
