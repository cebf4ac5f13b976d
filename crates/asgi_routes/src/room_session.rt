//! The sessions of rooms of different types, as one type.
use asgi_apps::AppFault;
use asgi_talks::{Answer, Talk, Tells};
use asgi_types::Payload;
use std::alloc::Global;

/// The session of a table without rooms, which opens none: if there were one, each message would be
/// a fault.
#[derive(Debug, Drop)]
pub struct NoSession;

/// A session of the room that was added last, or of one before it.
#[derive(Debug, Drop)]
pub enum RoomSession<S, T> {
    /// A session of the room that was added last.
    This(S),
    /// A session of a room that was added before it.
    Other(T),
}

impl Talk for NoSession {
    ghost answers = { λ _ _ _ _. ⊥ };

    fn hear(&mut self, _alloc: Global, _message: Payload) -> Result<Answer, AppFault> {
        Err(AppFault::Failed)
    }
}

impl Tells for NoSession {
    ghost tells = { λ _ _ _. ⊥ };

    fn tell(&mut self, _alloc: Global) -> Result<Answer, AppFault> {
        Err(AppFault::Failed)
    }
}

/// Each message goes to the room's own session, which answers it.
impl<S: Talk, T: Talk> Talk for RoomSession<S, T> {
    ghost use Rattle.asgi_routes.specs.RoomSessions.{RoomAnswers};

    ghost answers = { RoomAnswers S.answers T.answers };

    fn hear(&mut self, alloc: Global, message: Payload) -> Result<Answer, AppFault> {
        match self {
            RoomSession::This(session) => session.hear(alloc, message),
            RoomSession::Other(session) => session.hear(alloc, message),
        }
    }
}

/// What the room's own session says unasked.
impl<S: Tells, T: Tells> Tells for RoomSession<S, T> {
    ghost use Rattle.asgi_routes.specs.RoomSessions.{RoomFails, RoomTells};

    ghost tells = { RoomTells S.tells T.tells };

    ghost fails = { RoomFails S.fails T.fails };

    fn tell(&mut self, alloc: Global) -> Result<Answer, AppFault> {
        match self {
            RoomSession::This(session) => session.tell(alloc),
            RoomSession::Other(session) => session.tell(alloc),
        }
    }
}
