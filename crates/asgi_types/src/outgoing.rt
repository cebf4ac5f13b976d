//! What an application sends.
use crate::{Chars, Headers, Octets, Payload, State};

/// The version of a request: HTTP/1.0 or HTTP/1.1 (RFC 9112, section 2.3).
#[derive(Clone, Copy, Debug, PartialEq, Eq)]
pub enum HttpVersion {
    /// HTTP/1.0.
    V10,
    /// HTTP/1.1.
    V11,
}

/// An event that an application sends (ASGI HTTP and WebSocket message format 2.4, lifespan
/// protocol 2.0).
#[derive(Debug, Drop)]
pub enum Outgoing {
    /// "Response Start": the status code of a final response (RFC 9110, section 15), its fields, and
    /// whether trailer fields follow the content (extension `http.response.trailers`).
    ResponseStart {
        status: u16,
        headers: Headers,
        trailers: bool,
    },
    /// "Response Body": a part of the content, without its framing; the last if `more_body` is
    /// false.
    ResponseBody {
        body: Octets,
        more_body: bool,
    },
    /// "Response Trailers" (extension `http.response.trailers`), after the last body of a response
    /// whose start has announced them: trailer fields (RFC 9110, section 6.5); the last if
    /// `more_trailers` is false.
    ResponseTrailers {
        headers: Headers,
        more_trailers: bool,
    },
    /// "Accept": the session begins, with one of the offered subprotocols or with none.
    WsAccept {
        subprotocol: Option<Chars>,
        headers: Headers,
    },
    /// "Send": a whole message to the client.
    WsSend {
        payload: Payload,
    },
    /// "Close": the session ends, with a close code (RFC 6455, section 7.4) and a reason of at most
    /// 123 bytes (section 5.5); before "Accept" the handshake is refused.
    WsClose {
        code: u16,
        reason: Chars,
    },
    /// "Response Start" in place of "Accept" (extension `websocket.http.response`): the status code
    /// of a final response, and its fields.
    DenialStart {
        status: u16,
        headers: Headers,
    },
    /// "Response Body" after that start: a part of the content; the last if `more_body` is false.
    DenialBody {
        body: Octets,
        more_body: bool,
    },
    /// "Startup Complete", with the state that each later scope gets a copy of ("Lifespan State").
    StartupComplete {
        state: State,
    },
    /// "Startup Failed", with a message about it.
    StartupFailed {
        message: Chars,
    },
    /// "Shutdown Complete".
    ShutdownComplete,
    /// "Shutdown Failed", with a message about it.
    ShutdownFailed {
        message: Chars,
    },
}
