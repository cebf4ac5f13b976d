//! The content of a response: how its bodies are written, and how many bytes are left.
ghost use Rattle.std.specs.Prelude.{◌≡◌};

use asgi_protocol::BytesLeft;

/// How the bodies are written (RFC 9112, section 6).
#[derive(Clone, Copy, Debug, PartialEq, Eq)]
pub enum Coding {
    /// The response has no content: it answers HEAD, or is 204 or 304 (RFC 9112, section 6.3).
    Nothing,
    /// The bytes as they are: by their length, or until the connection closes (RFC 9112,
    /// section 6.3).
    Plain,
    /// The chunked transfer coding (RFC 9112, section 7.1).
    Chunked,
}

/// What follows the content of a response.
#[derive(Clone, Copy, Debug, PartialEq, Eq)]
pub enum Trailing {
    /// Nothing: the start has announced no trailers.
    Nothing,
    /// Trailers that have no text: the client does not take them, or the content is not chunked
    /// (RFC 9110, section 6.5.1).
    Unsent,
    /// A trailer section (RFC 9112, section 7.1.2).
    Sent,
}

impl Trailing {
    ghost use Rattle.asgi_response.specs.Standing.{trailing_of};
    ghost use Rattle.asgi_response.specs.private.Steps.{is_sent};

    /// What follows, by whether the start has announced trailers, and whether they are sent.
    pub fn of(announced: bool, sent: bool) -> Self
        ensures { result ≡ trailing_of announced sent }
    {
        if !announced {
            return Trailing::Nothing;
        }
        if sent {
            return Trailing::Sent;
        }
        Trailing::Unsent
    }

    /// Whether a trailer section is sent.
    pub fn is_sent(self) -> bool
        ensures { result ≡ is_sent self }
    {
        matches!(self, Trailing::Sent)
    }
}

/// What the bodies after a start may be.
#[derive(Clone, Copy, Debug, PartialEq, Eq)]
pub struct Content {
    /// How the bodies are written.
    pub coding: Coding,
    /// What follows the last body.
    pub trailing: Trailing,
    /// The bytes that are left of those that `content-length` promised, if it promised any.
    pub left: BytesLeft,
}

impl Content {
    ghost use Rattle.asgi_protocol.specs.BytesLeft.{left_after};
    ghost use Rattle.asgi_response.specs.private.Steps.{is_allowed};

    /// Whether a body of `len` bytes is neither too long nor, if it is the last, too short for what
    /// `content-length` promised (RFC 9110, section 8.6).
    pub fn allows(&self, len: usize, more_body: bool) -> bool
        ensures { result ≡ is_allowed self.now.left len more_body }
    {
        if self.left.is_exceeded_by(len) {
            return false;
        }
        more_body || !self.left.exceeds(len)
    }

    /// What the bodies may be after one of `len` bytes.
    pub fn after(self, len: usize) -> Self
        ensures coding { result.coding ≡ self.coding }
        ensures trailing { result.trailing ≡ self.trailing }
        ensures left { result.left ≡ left_after self.left len }
    {
        Content {
            coding: self.coding,
            trailing: self.trailing,
            left: self.left.after(len),
        }
    }
}
