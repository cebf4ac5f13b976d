//! What is due next in the bytes.
ghost use Rattle.std.specs.Prelude.{◌≡◌};

use crate::refusal::Refusal;

/// What is due next.
#[derive(Clone, Copy, Debug, PartialEq, Eq)]
pub enum Place {
    /// The head of a request.
    Start,
    /// This many bytes of a body whose length was announced, or the one event of an empty one.
    Counted(u64),
    /// The line before a chunk, after chunks of this many bytes altogether.
    SizeLine(u64),
    /// `left` bytes of a chunk; `sum` is the data of all chunks, this one whole.
    Chunk { left: u64, sum: u64 },
    /// CR LF after the data of a chunk; all chunks have this many bytes of data altogether.
    ChunkEnd(u64),
    /// The trailer section after the last chunk (RFC 9112, section 7.1.2).
    Trailers,
    /// Nothing more of this request.
    BodyEnd,
    /// Nothing more of this opening handshake.
    HandshakeEnd,
    /// Nothing ever: frames follow the opening handshake.
    Upgraded,
    /// Nothing ever: the bytes are refused.
    Stopped(Refusal),
}

/// How far a reader gets without a result.
#[derive(Clone, Copy, Debug, PartialEq, Eq)]
pub enum Advance {
    /// The next text is not whole.
    Waits,
    /// The bytes are refused.
    Refuses(Refusal),
    /// A text of this many bytes is next, which gives a result.
    Gives(usize),
}

impl Place {
    ghost use Rattle.asgi_request.specs.private.Searches as spec;

    /// Whether a text that is not refused gives no result here.
    pub fn is_silent(self) -> bool
        ensures { result ≡ spec.is_silent self }
    {
        match self {
            Place::SizeLine(_) | Place::ChunkEnd(_) => true,
            _ => false,
        }
    }

    /// Why the bytes are refused here, if they are.
    pub fn refusal(self) -> Option<Refusal>
        ensures { result ≡ spec.refusal_at self }
    {
        match self {
            Place::Stopped(refusal) => Some(refusal),
            _ => None,
        }
    }
}
