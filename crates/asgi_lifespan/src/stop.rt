//! How the stop of an application was answered.
use asgi_types::Chars;

/// How the stop of an application was answered (ASGI lifespan protocol 2.0, "Shutdown Complete" and
/// "Shutdown Failed").
#[derive(Debug, Drop)]
pub enum Stop {
    /// The application stopped, or its task returned.
    Stopped,
    /// The stop failed, with this message; or the task faulted, with none.
    Failed(Chars),
    /// There was no answer within the limits. This many turns were taken.
    Idle(u64),
}
