//! The rooms of a table, by the number of a pattern.
ghost use Rattle.std.specs.Prelude.{ℕ, List, IfOk};
ghost use Rattle.std.specs.Result.{IsErrOf};
ghost use Rattle.asgi_types.specs.declared.scope.WsScope.{WsScope};
ghost use Rattle.asgi_handlers.specs.Params.{Param, params_of};
ghost use Rattle.asgi_talks.specs.declared.opened.Opened.{Opened};

use asgi_apps::AppFault;
use asgi_talks::{Opened, Talk};
use asgi_types::WsScope;
use std::alloc::Global;

/// The rooms of a table, each for the pattern of one number.
pub trait RoomList {
    /// What answers the messages of one session.
    type Session: Talk;

    // The promise of the room at the pattern of this number; that the session is refused if there is none.
    ghost allows: { Self → ℕ → WsScope → List Param → Opened Self.Session → Type 0 };

    // The handshakes that this room may fail to answer by its own judgement; none if there is no room.
    ghost fails: { Self → ℕ → WsScope → List Param → Type 0 };

    /// The answer of the room at the pattern of this number to an opening handshake; a refusal if
    /// there is none. The fault is the room's.
    fn open(
        &self,
        alloc: Global,
        pattern: usize,
        scope: &WsScope,
        params: &[(&str, &str)],
    ) -> Result<Opened<Self::Session>, AppFault>
        ensures allowed { IfOk result (λ opened. allows self.now pattern scope.now (params_of params.now) opened) }
        ensures failed { IsErrOf result AppFault.Failed → fails self.now pattern scope.now (params_of params.now) };
}
