//! What a reader gives.
ghost use Rattle.std.specs.Prelude.{◌≡◌};
ghost use Rattle.asgi_request.specs.BodyResults as spec;

use asgi_types::{Facts, Incoming, Scope};

/// What a reader gives next.
#[derive(Drop)]
pub enum Next {
    /// No result before more bytes are fed.
    Need,
    /// The head of a request, or an opening handshake: its scope, without a client, a server and a
    /// state, and what the server keeps of it.
    Head(Scope, Facts),
    /// An event of the body, which is always "Request" with at most `block` bytes of the content
    /// and none of its framing (ASGI HTTP and WebSocket message format 2.4, "Request"). In the last
    /// event `more_body` is false; an empty body has one event.
    Event(Incoming),
    /// The request is whole. After an opening handshake, which has no event, nothing follows but
    /// `Need`: `RequestReader::rest` has the bytes.
    Whole,
    /// The bytes are refused with this status, now and at each later call: 400, 413, 426, 431 or
    /// 501.
    Bad(u16),
}

/// What a reader gives next inside a request: any result but a head, which makes a `Next` large.
#[derive(Drop)]
pub enum NextOfBody {
    /// No result before more bytes are fed.
    Need,
    /// An event of the body, as in `Next`.
    Event(Incoming),
    /// The request is whole, and it is so until `next` gives another head.
    Whole,
    /// The bytes are refused with this status, as in `Next`.
    Bad(u16),
}

/// The same result among all.
pub fn next_of(given: NextOfBody) -> Next
    ensures { result ≡ spec.next_of given }
{
    match given {
        NextOfBody::Need => Next::Need,
        NextOfBody::Event(event) => Next::Event(event),
        NextOfBody::Whole => Next::Whole,
        NextOfBody::Bad(status) => Next::Bad(status),
    }
}
