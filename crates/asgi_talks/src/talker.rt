//! What opens sessions, and what answers their messages.
ghost use Rattle.std.specs.Prelude.{IfOk, OnErr, ⊤};
ghost use Rattle.std.specs.Result.{IsErrOf};
ghost use Rattle.asgi_types.specs.declared.incoming.Payload.{Payload};
ghost use Rattle.asgi_types.specs.declared.scope.WsScope.{WsScope};
ghost use Rattle.asgi_talks.specs.declared.answer.Answer.{Answer};
ghost use Rattle.asgi_talks.specs.declared.opened.Opened.{Opened};

use crate::answer::Answer;
use crate::opened::Opened;
use asgi_apps::AppFault;
use asgi_types::{Payload, WsScope};
use std::alloc::Global;

/// One session, from its start to its end: what it keeps between the messages.
pub trait Talk: Drop {
    // The promise: that the session, as it was, has answered this message so, and what it is after it.
    ghost answers: { Self → Payload → Self → Answer → Type 0 } = { λ _ _ _ _. ⊤ };

    /// The answer to a message of the client, which is whole. The next message is heard only after
    /// all of the answer was sent. `Failed` by the session's own judgement, `NoMemory` if memory is
    /// refused; then nothing more is sent, and the server closes the session with 1011.
    fn hear(&mut self, alloc: Global, message: Payload) -> Result<Answer, AppFault>
        ensures { IfOk result (λ answer. answers self.old message self.new answer) };
}

/// A session that may also speak unasked, as when it sends on what others have said. A session that
/// only answers is one too, as `Quiet`.
pub trait Tells: Talk {
    // The promise: that the session, as it was, has said this unasked, and what it is after it.
    ghost tells: { Self → Self → Answer → Type 0 } = { λ _ _ _. ⊤ };

    // The sessions that may fail to speak.
    ghost fails: { Self → Type 0 } = { λ _. ⊤ };

    /// What the session says unasked; nothing, if there is nothing to say. Asked in each turn of the
    /// connection in which no message was there and all before was sent: some hundred times a second.
    /// `Failed` by the session's own judgement, `NoMemory` if memory is refused; then nothing more is
    /// sent, and the server closes the session with 1011.
    fn tell(&mut self, alloc: Global) -> Result<Answer, AppFault>
        ensures told { IfOk result (λ answer. tells self.old self.new answer) }
        ensures failed { OnErr result (fails self.old) };
}

/// Opens each session. What several sessions share is behind the `&self`.
pub trait Talker {
    /// What answers the messages of one session.
    type Session: Talk;

    // The promise: that the handshake of this scope was answered so.
    ghost opens: { Self → WsScope → Opened Self.Session → Type 0 } = { λ _ _ _. ⊤ };

    // The handshakes that the talker may fail to answer by its own judgement.
    ghost fails: { Self → WsScope → Type 0 } = { λ _ _. ⊤ };

    /// The answer to an opening handshake. `Failed` by the talker's own judgement, `NoMemory` if
    /// memory is refused; then the client gets 500.
    fn open(&self, alloc: Global, scope: &WsScope) -> Result<Opened<Self::Session>, AppFault>
        ensures allowed { IfOk result (λ opened. opens self.now scope.now opened) }
        ensures failed { IsErrOf result AppFault.Failed → fails self.now scope.now };
}

/// A talker that is borrowed, so that what it holds is shared and not copied.
impl<T: Talker> Talker for &T {
    type Session = T::Session;

    ghost opens = { λ talker. T.opens talker.now };

    ghost fails = { λ talker. T.fails talker.now };

    fn open(&self, alloc: Global, scope: &WsScope) -> Result<Opened<T::Session>, AppFault> {
        T::open(*self, alloc, scope)
    }
}
