//! What goes from an application to its connection.
use asgi_types::{EndKind, Outgoing};

/// What a connection takes: the events that the application sent, and then its end.
#[derive(Debug, Drop)]
pub enum OutItem {
    /// An event that the judge passed.
    Event(Outgoing),
    /// How the task ended, after all its events.
    Ended(EndKind),
}

/// The result of a send.
#[derive(Debug, Drop)]
pub enum Sent {
    /// The event went into the queue, in one place.
    Done,
    /// The response is complete: the event has no effect, and is dropped (ASGI HTTP and WebSocket
    /// message format 2.4, "Response Body").
    Ignored,
    /// The event would pass, but no place is free: it is returned, for another try.
    Full(Outgoing),
    /// The event is refused, by a `Violation`'s number, and returned; the queue is as before.
    Refused(u8, Outgoing),
}
