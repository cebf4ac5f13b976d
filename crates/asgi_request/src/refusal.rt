//! Why a request is refused.
ghost use Rattle.std.specs.Prelude.{◌≡◌};
ghost use Rattle.asgi_request.specs.Refusals.{status_of};

/// Why a request is refused, each reason with a status of its own.
#[derive(Clone, Copy, Debug, PartialEq, Eq)]
pub enum Refusal {
    /// The bytes are no request that is accepted: the head, its framing, its opening handshake or
    /// its chunked body is faulty (RFC 9110, section 15.5.1): 400.
    BadRequest,
    /// The body is announced, by `content-length` or by its chunks, with more bytes than `max_body`
    /// (RFC 9110, section 15.5.14): 413.
    ContentTooLarge,
    /// The head has more bytes than `max_head` (RFC 6585, section 5): 431.
    HeaderFieldsTooLarge,
    /// The request asks for WebSocket, but `sec-websocket-version` is not there exactly once with
    /// 13 (RFC 6455, section 4.4; RFC 9110, section 15.5.22): 426.
    UpgradeRequired,
    /// The method is CONNECT, or the transfer coding is not `chunked` alone (RFC 9110,
    /// section 15.6.2): 501.
    NotImplemented,
}

impl Refusal {
    /// The status of the response: 400, 413, 426, 431 or 501.
    pub fn status(self) -> u16
        ensures { result ≡ status_of self }
    {
        match self {
            Refusal::BadRequest => 400,
            Refusal::ContentTooLarge => 413,
            Refusal::HeaderFieldsTooLarge => 431,
            Refusal::UpgradeRequired => 426,
            Refusal::NotImplemented => 501,
        }
    }
}
