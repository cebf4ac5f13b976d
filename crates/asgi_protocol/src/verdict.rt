//! The judge's verdicts.
ghost use Rattle.std.specs.Prelude.{◌≡◌};
ghost use Rattle.asgi_protocol.specs.Numbers.{number_of};
ghost use Rattle.asgi_protocol.specs.declared.verdict.Verdict.TheVariants.{Refused};

use thiserror::Error;

/// What becomes of an event.
#[derive(Clone, Copy, Debug, PartialEq, Eq)]
pub enum Verdict {
    /// The event may follow what was sent.
    Pass,
    /// The response is complete, and the event has no effect (ASGI HTTP and WebSocket message
    /// format 2.4, "Response Body").
    Ignored,
    /// The event is refused, by the number of a `Violation`, from 1 to 11.
    Refused(u8),
}

/// Why an event is refused, in the order in which the reasons are looked at.
#[derive(Clone, Copy, Debug, PartialEq, Eq, Error)]
pub enum Violation {
    /// All was sent, and the scope is not HTTP.
    #[error("the conversation is closed")]
    Closed,
    /// The application has received the disconnect of its client (ASGI HTTP and WebSocket message
    /// format 2.4, "Disconnected Client").
    #[error("a disconnect was heard")]
    Disconnected,
    /// A response belongs to HTTP, a session or a denial to WebSocket, the replies to startup and
    /// shutdown to lifespan.
    #[error("the event belongs to another kind of scope")]
    WrongScope,
    /// No event of this sort may follow what was sent.
    #[error("the event is out of order")]
    OutOfOrder,
    /// A start does not have the status of a final response, 200 to 599 (RFC 9110, section 15).
    #[error("the status is outside 200 to 599")]
    BadStatus,
    /// A start has a faulty content-length (RFC 9110, section 8.6), or an accept has a field of the
    /// handshake (RFC 6455, section 4.2.2) or one that delimits content.
    #[error("a field is not allowed here, or content-length is not one field of 1 to 19 digits")]
    BadHeader,
    /// A close has a code that is reserved or unknown (RFC 6455, section 7.4): one outside 1000 to
    /// 1003, 1007 to 1011 and 3000 to 4999.
    #[error("an application may not send this close code")]
    BadCode,
    /// A control frame has no room for the reason, which has more than 123 bytes (RFC 6455,
    /// section 5.5).
    #[error("the close reason has more than 123 bytes")]
    BadReason,
    /// An accept chooses a subprotocol that is none of those offered, byte for byte (RFC 6455,
    /// section 4.2.2).
    #[error("the client did not offer this subprotocol")]
    BadSubprotocol,
    /// A body goes past the bytes that the start promised by content-length (RFC 9110,
    /// section 8.6).
    #[error("the bodies have more bytes than content-length says")]
    TooMuchBody,
    /// The last body ends before the bytes that the start promised by content-length (RFC 9110,
    /// section 8.6).
    #[error("the bodies have fewer bytes than content-length says")]
    TooLittleBody,
}

impl Violation {
    /// The number of the reason: its place in the order above, from 1 to 11.
    pub fn number(self) -> u8
        ensures { result ≡ number_of self }
    {
        match self {
            Violation::Closed => 1,
            Violation::Disconnected => 2,
            Violation::WrongScope => 3,
            Violation::OutOfOrder => 4,
            Violation::BadStatus => 5,
            Violation::BadHeader => 6,
            Violation::BadCode => 7,
            Violation::BadReason => 8,
            Violation::BadSubprotocol => 9,
            Violation::TooMuchBody => 10,
            Violation::TooLittleBody => 11,
        }
    }
}

impl From<Violation> for Verdict {
    ghost from_gives = { λ why verdict. verdict ≡ Refused (number_of why) };

    fn from(why: Violation) -> Verdict {
        Verdict::Refused(why.number())
    }
}
