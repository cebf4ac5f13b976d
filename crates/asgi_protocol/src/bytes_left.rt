//! The bytes that a response still has to send of its content-length.
ghost use Rattle.std.specs.Prelude.{◌≡◌, ℕ, Option};

use std::marker::Model;

/// The bytes that content-length promises and that are not sent yet, or any number of them
/// (RFC 9110, section 8.6).
#[derive(Clone, Copy, Debug, PartialEq, Eq)]
pub struct BytesLeft {
    count: Option<u64>,
}

impl Model for BytesLeft {
    ghost Value = { Option ℕ };

    ghost view = { λ left. left.count };

    ghost inverse = { λ count. record { count = count } };
}

impl BytesLeft {
    ghost use Rattle.asgi_protocol.specs.BytesLeft.{is_above, is_below, left_after};

    /// All of the promised bytes; `None` for any number.
    pub fn of(promised: Option<u64>) -> Self
        ensures { result ≡ promised }
    {
        BytesLeft { count: promised }
    }

    /// Whether a body of this many bytes goes past them.
    pub fn is_exceeded_by(self, len: usize) -> bool
        ensures { result ≡ is_above len self }
    {
        match self.count {
            Some(count) => count < len as u64,
            None => false,
        }
    }

    /// Whether a last body of this many bytes falls short of them.
    pub fn exceeds(self, len: usize) -> bool
        ensures { result ≡ is_below len self }
    {
        match self.count {
            Some(count) => (len as u64) < count,
            None => false,
        }
    }

    /// What is left after a body of this many bytes; 0 if the body goes past them.
    pub fn after(self, len: usize) -> Self
        ensures { result ≡ left_after self len }
    {
        match self.count {
            Some(count) => BytesLeft::of(Some(count.saturating_sub(len as u64))),
            None => self,
        }
    }
}
