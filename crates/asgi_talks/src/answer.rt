//! What a session answers to one message.
ghost use Rattle.std.specs.Prelude.{◌≡◌, ◌↔◌, [], ◌∷◌, ◌++◌, Some, is_some, IfOk, IfSome, IfNone, IsTrue};
ghost use Rattle.asgi_types.specs.declared.incoming.Payload.TheVariants.{Bytes, Text};
ghost use Rattle.asgi_talks.specs.Answering.{answer_events};
ghost use Rattle.asgi_talks.specs.Making.{close_answer, message_answer, no_answer};

use crate::messages::Messages;
use asgi_types::{Chars, Octets, Outgoing, Payload};
use std::alloc::{AllocError, Global};

/// A close of the session (ASGI HTTP and WebSocket message format 2.4, "Close").
#[derive(Debug, Drop)]
pub struct Close {
    /// The close code (RFC 6455, section 7.4): 1000 to 1003, 1007 to 1011 or 3000 to 4999.
    pub code: u16,
    /// The reason, of at most 123 bytes (section 5.5).
    pub reason: Chars,
}

/// What is sent for one message of the client: messages, and then a close, if there is one.
#[derive(Debug, Drop)]
pub struct Answer {
    /// The messages, in the order in which they are sent ("Send").
    pub messages: Messages,
    /// The close that is sent after them. Then the session is over.
    pub close: Option<Close>,
}

impl Answer {
    /// Nothing is sent. Takes no memory.
    pub fn nothing(alloc: Global) -> Self
        ensures { result ≡ no_answer }
    {
        Answer {
            messages: Messages::new(alloc),
            close: None,
        }
    }

    /// This message is sent. `AllocError` if memory is refused.
    pub fn message(alloc: Global, message: Payload) -> Result<Self, AllocError>
        ensures { IfOk result (λ answer. answer ≡ message_answer message) }
    {
        let mut messages = Messages::new(alloc);
        messages.push(message)?;
        Ok(Answer {
            messages,
            close: None,
        })
    }

    /// This text is sent. `AllocError` if memory is refused.
    pub fn text(alloc: Global, text: &str) -> Result<Self, AllocError>
        ensures { IfOk result (λ answer. answer ≡ message_answer (Text text.now)) }
    {
        let text = Chars::new(String::from_str(alloc, text)?);
        Answer::message(alloc, Payload::Text(text))
    }

    /// A binary message of these bytes is sent. `AllocError` if memory is refused.
    pub fn bytes(alloc: Global, bytes: &[u8]) -> Result<Self, AllocError>
        ensures { IfOk result (λ answer. answer ≡ message_answer (Bytes bytes.now)) }
    {
        let bytes = Octets::new(Vec::from_slice(alloc, bytes)?);
        Answer::message(alloc, Payload::Bytes(bytes))
    }

    /// The session is closed with this code and this reason. `AllocError` if memory is refused.
    pub fn closing(alloc: Global, code: u16, reason: &str) -> Result<Self, AllocError>
        ensures { IfOk result (λ answer. answer ≡ close_answer code reason.now) }
    {
        let reason = Chars::new(String::from_str(alloc, reason)?);
        Ok(Answer {
            messages: Messages::new(alloc),
            close: Some(Close { code, reason }),
        })
    }

    /// The answer with one more message, after the others and before a close. `AllocError` if memory
    /// is refused.
    pub fn and(self, message: Payload) -> Result<Self, AllocError>
        ensures { IfOk result (λ answer. answer ≡ record self { messages = self.messages ++ message ∷ [] }) }
    {
        let Answer {
            mut messages,
            close,
        } = self;
        messages.push(message)?;
        Ok(Answer { messages, close })
    }

    /// The answer with this close after its messages, in the place of its own. Takes no memory.
    pub fn and_close(self, close: Close) -> Self
        ensures { result ≡ record self { close = Some close } }
    {
        let Answer { messages, close: _ } = self;
        Answer {
            messages,
            close: Some(close),
        }
    }

    /// Whether the answer closes the session.
    pub(crate) fn closes(&self) -> bool
        ensures { result ≡ is_some self.now.close }
    {
        self.close.is_some()
    }

    /// Whether nothing is left to send of it.
    pub(crate) fn is_empty(&self) -> bool
        ensures { IsTrue result ↔ (answer_events self.now ≡ []) }
    {
        if self.close.is_some() {
            return false;
        }
        self.messages.is_empty()
    }

    /// Takes out the event to send next; `None` if nothing is left.
    pub(crate) fn take_next(&mut self) -> Option<Outgoing>
        ensures some { IfSome result (λ event. answer_events self.old ≡ event ∷ answer_events self.new) }
        ensures none { IfNone result ((answer_events self.old ≡ []) × (answer_events self.new ≡ [])) }
    {
        match self.messages.take_first() {
            Some(payload) => Some(Outgoing::WsSend { payload }),
            None => self.take_close(),
        }
    }

    /// Takes out the close, if there is one.
    fn take_close(&mut self) -> Option<Outgoing>
        requires { self.old.messages ≡ [] }
        ensures some { IfSome result (λ event. answer_events self.old ≡ event ∷ answer_events self.new) }
        ensures none { IfNone result ((answer_events self.old ≡ []) × (answer_events self.new ≡ [])) }
    {
        match self.close.take() {
            Some(close) => Some(close.into_event()),
            None => None,
        }
    }
}

impl Close {
    /// The event of the close.
    fn into_event(self) -> Outgoing
        ensures { result ≡ Outgoing.WsClose self.code self.reason }
    {
        let Close { code, reason } = self;
        Outgoing::WsClose { code, reason }
    }
}
