//! The messages of a session.
ghost use Rattle.std.specs.Prelude.{◌≡◌, ℕ, ◌⊎◌, List, [], ◌∷◌, ◌++◌, Option, None, IsSome, IfOk};
ghost use Rattle.asgi_ws.specs.declared.messages.Msg.{Msg};
ghost use Rattle.asgi_ws.specs.declared.messages.Got.TheVariants as got;
ghost use Rattle.asgi_ws.specs.declared.messages.Put.TheVariants as put;
ghost use Rattle.asgi_ws.specs.declared.messages.SentMessage.TheVariants as item;
ghost use Rattle.asgi_ws.specs.declared.messages.Call.{Call};
ghost use Rattle.asgi_ws.specs.declared.messages.Call.TheVariants as call;
ghost use Rattle.asgi_ws.specs.Sessions.{given_by, is_failed, has_failed, count_after, Loses, EndsAt, kept_by};

use asgi_io::{Counts, Reads};
use asgi_types::{Chars, Octets, Payload, Reason};
use std::alloc::{AllocError, Global};

/// A message of the client (RFC 6455, sections 5.5 and 5.6).
#[derive(Debug, Drop)]
pub enum Msg {
    /// The payload of one text message, whole and unmasked.
    Text(Chars),
    /// The payload of one binary message, whole and unmasked.
    Bytes(Octets),
    /// A ping, without its data.
    Ping,
    /// A pong, without its data.
    Pong,
    /// The code and the reason, if the close has a body (section 5.5.1).
    Close(Option<(u16, Reason)>),
}

impl Msg {
    /// A copy of the message, in memory of its own. `AllocError` if that is refused.
    pub fn copy(&self, alloc: Global) -> Result<Self, AllocError>
        ensures { IfOk result (λ copied. copied ≡ self.now) }
    {
        match self {
            Msg::Text(text) => Ok(Msg::Text(text.copy(alloc)?)),
            Msg::Bytes(bytes) => Ok(Msg::Bytes(bytes.copy(alloc)?)),
            Msg::Ping => Ok(Msg::Ping),
            Msg::Pong => Ok(Msg::Pong),
            Msg::Close(close) => Ok(Msg::Close(*close)),
        }
    }
}

/// The result of a read.
#[derive(Debug, Drop)]
pub enum Got {
    /// The next message.
    Message(Msg),
    /// Nothing has arrived yet.
    Idle,
    /// No message follows.
    Ended,
    /// The line failed, or carries no messages yet.
    Failed,
    /// Memory was refused.
    NoMemory,
}

/// The result of a send.
#[derive(Clone, Copy, Debug, PartialEq, Eq)]
pub enum Put {
    /// All of it was sent.
    Done,
    /// The line or its protocol refused it, or the line carries no messages yet.
    Failed,
    /// Memory was refused.
    NoMemory,
}

/// A message or a close to be sent to the client.
#[derive(Debug, Drop)]
pub enum SentMessage {
    /// One message of text or of bytes (RFC 6455, section 5.6).
    Payload(Payload),
    /// A close with this code and reason (RFC 6455, section 5.5.1).
    Close(u16, Reason),
}

/// A call of a session, with its result.
#[derive(Debug, Drop)]
pub enum Call {
    /// A read of a message.
    Read(Got),
    /// A send of a message or of a close.
    Send(SentMessage, Put),
}

/// Messages in and out, recorded call by call. Before `upgrade` of `Line` each call returns Failed.
pub trait Messages: Reads + Counts {
    /// The reads and the sends, each with its result, the oldest first.
    ghost calls: { Self → List Call };

    /// The messages that reads will return from here on, if they are known.
    ghost coming: { Self → Option (List Msg) };

    /// The bytes that `upgrade` kept; None before it.
    ghost leftover: { Self → Option (List ℕ) };

    /// Returns the next message, whole and unmasked. With `Failed` one more failure is counted.
    fn read_message(&mut self) -> Got
        ensures told { calls self.new ≡ calls self.old ++ call.Read result ∷ [] }
        ensures coming { Loses (coming self.old) (coming self.new) (given_by result) × EndsAt result (coming self.new) }
        ensures counts { Self.failed self.new ≡ count_after (Self.failed self.old) (is_failed result) }
        ensures shut { leftover self.old ≡ None → result ≡ got.Failed }
        ensures same { leftover self.new ≡ leftover self.old }
        ensures text { (Self.remaining self.new ≡ Self.remaining self.old) × (Self.written self.new ≡ Self.written self.old)
            × (Self.Reads.answers self.new ≡ Self.Reads.answers self.old) × (Self.Counts.answers self.new ≡ Self.Counts.answers self.old) };

    /// Sends one message of text or of bytes (RFC 6455, section 5.6). With `Failed` one more
    /// failure is counted.
    fn send_message(&mut self, payload: Payload) -> Put
        ensures told { calls self.new ≡ calls self.old ++ call.Send (item.Payload payload) result ∷ [] }
        ensures counts { Self.failed self.new ≡ count_after (Self.failed self.old) (has_failed result) }
        ensures shut { leftover self.old ≡ None → result ≡ put.Failed }
        ensures same { (coming self.new ≡ coming self.old) × (leftover self.new ≡ leftover self.old) }
        ensures text { (Self.remaining self.new ≡ Self.remaining self.old) × (Self.written self.new ≡ Self.written self.old)
            × (Self.Reads.answers self.new ≡ Self.Reads.answers self.old) × (Self.Counts.answers self.new ≡ Self.Counts.answers self.old) };

    /// Sends a close with this code and reason (RFC 6455, section 5.5.1). With `Failed` one more
    /// failure is counted.
    fn send_close(&mut self, code: u16, reason: Reason) -> Put
        ensures told { calls self.new ≡ calls self.old ++ call.Send (item.Close code reason) result ∷ [] }
        ensures counts { Self.failed self.new ≡ count_after (Self.failed self.old) (has_failed result) }
        ensures shut { leftover self.old ≡ None → result ≡ put.Failed }
        ensures same { (coming self.new ≡ coming self.old) × (leftover self.new ≡ leftover self.old) }
        ensures text { (Self.remaining self.new ≡ Self.remaining self.old) × (Self.written self.new ≡ Self.written self.old)
            × (Self.Reads.answers self.new ≡ Self.Reads.answers self.old) × (Self.Counts.answers self.new ≡ Self.Counts.answers self.old) };
}
