//! What an application receives.
use crate::{Chars, Octets, Reason};

/// The content of a WebSocket message (RFC 6455, section 5.6).
#[derive(Debug, Drop)]
pub enum Payload {
    /// A text message, in UTF-8.
    Text(Chars),
    /// A binary message.
    Bytes(Octets),
}

/// An event that an application receives (ASGI HTTP and WebSocket message format 2.4,
/// lifespan protocol 2.0).
#[derive(Debug, Drop)]
pub enum Incoming {
    /// "Request": a part of the body, the bytes of the content and not of its framing. The part may
    /// be empty, and is the last if `more_body` is false.
    HttpRequest { body: Octets, more_body: bool },
    /// "Disconnect" of a request: the client is gone, or the response is complete.
    HttpDisconnect,
    /// "Connect": the client asks for a session, with its opening handshake.
    WsConnect,
    /// "Receive": a whole message of the client.
    WsReceive { payload: Payload },
    /// "Disconnect" of a session: the close code and the reason. 1005 means a close without a code,
    /// 1006 an end without a close (RFC 6455, section 7.1.5).
    WsDisconnect { code: u16, reason: Reason },
    /// "Startup": the server is about to serve.
    LifespanStartup,
    /// "Shutdown": the server has stopped serving.
    LifespanShutdown,
}
