//! Messages in their order.
ghost use Rattle.std.specs.Prelude.{◌≡◌, ◌↔◌, [], ◌∷◌, ◌++◌, IfSome, IfNone, IsTrue, OnOk, OnErr};

use asgi_types::Payload;
use std::alloc::{AllocError, Global};
use std::collections::VecDeque;
use std::marker::Model;

/// Messages in the order in which they were added (RFC 6455, section 5.6).
#[derive(Debug, Drop)]
pub struct Messages {
    queue: VecDeque<Payload>,
}

impl Model for Messages {
    ghost use Rattle.std.specs.Prelude.{List};
    ghost use Rattle.asgi_types.specs.declared.incoming.Payload.{Payload};

    ghost Value = { List Payload };

    ghost view = { λ m. m.queue.items };
}

impl Messages {
    /// No messages. Takes no memory.
    pub fn new(alloc: Global) -> Self
        ensures { result ≡ [] }
    {
        Messages {
            queue: VecDeque::new(alloc),
        }
    }

    /// Adds a message, after the others. `AllocError` if memory is refused; then nothing is added.
    pub fn push(&mut self, message: Payload) -> Result<(), AllocError>
        ensures ok { OnOk result (self.new ≡ self.old ++ message ∷ []) }
        ensures err { OnErr result (self.new ≡ self.old) }
    {
        self.queue.push_back(message)?;
        Ok(())
    }

    /// Whether there is none.
    pub fn is_empty(&self) -> bool
        ensures { IsTrue result ↔ (self.now ≡ []) }
    {
        self.queue.is_empty()
    }

    /// Takes the first one out; `None` if there is none.
    pub fn take_first(&mut self) -> Option<Payload>
        ensures some { IfSome result (λ message. self.old ≡ message ∷ self.new) }
        ensures none { IfNone result ((self.old ≡ []) × (self.new ≡ [])) }
    {
        self.queue.pop_front()
    }
}
